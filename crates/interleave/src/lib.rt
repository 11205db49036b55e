// Interleaved samples: sample t of channel c lies at t * channels + c. Those of one channel are gathered from there and spread to there.
#![tactic(auto)]

ghost use Rattle.std.specs.Prelude.{◌≡◌, ◌+◌, ◌*◌, ◌<◌, ◌≤◌, pos, length, get_or};
ghost use Rattle.lists.specs.Lists.{tabulate};
ghost use Rattle.interleave.specs.Interleave.{spread};

// Samples of one channel, from its sample `first` on, one for each place of `samples`.
pub fn gather(pcm: &[i16], first: usize, channels: usize, channel: usize, samples: &mut [i16])
    requires { (channel < channels) × ((first + length samples.old) * channels ≤ length pcm.now) }
    ensures { samples.new ≡ tabulate (λ w. get_or pcm.now ((first + w) * channels + channel) (pos 0)) (length samples.old) }
{
    for (w, sample) in samples.iter_mut().enumerate() {
        *sample = pcm[(first + w) * channels + channel];
    }
}

// The stores of `spread`. In line, so that it is compiled for each constant that it is called with.
#[inline(always)]
fn stores(out: &mut [i16], samples: &[i16], first: usize, channels: usize, channel: usize)
    requires { (channel < channels) × ((first + length samples.now) * channels ≤ length out.old) }
    ensures { out.new ≡ spread (pos 0) out.old samples.now first channels channel (length samples.now) }
{
    for (w, sample) in samples.iter().enumerate() {
        out[(first + w) * channels + channel] = *sample;
    }
}

// Samples of one channel, from its sample `first` on, go to their places of the output. One channel and two are constants for the compiler:
// of one it copies eight samples at a time, and with a variable for two, decoding of stereo took a seventh longer.
pub fn spread(out: &mut [i16], samples: &[i16], first: usize, channels: usize, channel: usize)
    requires { (channel < channels) × ((first + length samples.now) * channels ≤ length out.old) }
    ensures { out.new ≡ spread (pos 0) out.old samples.now first channels channel (length samples.now) }
{
    match channels {
        1 => stores(out, samples, first, 1, channel),
        2 => stores(out, samples, first, 2, channel),
        _ => stores(out, samples, first, channels, channel),
    }
}
