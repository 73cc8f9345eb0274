// Worked examples of what two closings of a batch are said to share, proved from the definitions.
ghost use Rattle.closing.specs.Samples.{Samples};

pub fn samples() -> u8
    ensures { Samples }
{
    0
}
