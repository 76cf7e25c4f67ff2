ghost use Rattle.std.specs.Prelude.{◌≡◌, ◌≤◌};
ghost use Rattle.radio.specs.Reception.{raised};
ghost use Rattle.radio.specs.Lines.{past};
ghost use Rattle.reading.specs.Gather.{Gathered};

use radio::line::Line;
use radio::symbol::Symbol;
use refusal::Fault;

/// A fault that has come up through a layer.
#[derive(Clone, Copy)]
pub(crate) struct Raised(pub(crate) Fault);

/// Coming up adds one to the rise, which stays at 255.
impl From<Fault> for Raised {
    ghost from_gives = { λ f r. r.0 ≡ raised f };

    fn from(f: Fault) -> Raised {
        Raised(Fault {
            rise: f.rise.saturating_add(1),
            ..f
        })
    }
}

impl From<Raised> for Fault {
    ghost from_gives = { λ r f. f ≡ r.0 };

    fn from(r: Raised) -> Fault {
        r.0
    }
}

/// Takes up to `want` symbols of the present reception into the start of `group`, and says how many came:
/// fewer only at the whole end.
pub(crate) fn gather<L: Line>(
    below: &mut L,
    want: usize,
    group: &mut [Symbol; 8],
) -> Result<usize, Raised>
    requires { want ≤ 8 }
    ensures gives { Gathered want (L.Line.heard below.old).present result group.new }
    ensures left { L.Line.heard below.new ≡ past want (L.Line.heard below.old) }
{
    for i in 0..want {
        match below.take()? {
            Some(s) => group[i] = s,
            None => return Ok(i),
        }
    }
    Ok(want)
}
