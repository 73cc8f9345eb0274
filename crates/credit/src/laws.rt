ghost use Rattle.credit.specs.Contrasts.{Contrasts};
ghost use Rattle.credit.specs.Example.{Example};
ghost use Rattle.credit.specs.Laws.{Laws};

// The laws of nets, rooms and flows hold, whatever the lines, the plans and the groups; and a worked example.
pub fn laws_hold() -> u8
    ensures laws { Laws }
    ensures example { Example }
    ensures contrasts { Contrasts }
{
    0
}
