// Worked examples of the format, proved from its definitions.
ghost use Rattle.batch.specs.Samples.{Samples};

pub fn samples() -> u8
    ensures { Samples }
{
    0
}
