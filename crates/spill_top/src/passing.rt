// The inputs of a query that passes a gate where the last of them ends.

ghost use Rattle.std.specs.Prelude.{◌≡◌};
ghost use Rattle.std.specs.Option.{option_map};

use outside::{Failed, Gate, Point, Source};

// A source, and whether it is the last one of its query.
pub(crate) struct Passing<'g, S, G> {
    source: S,
    gate: &'g G,
    who: u32,
    last: bool,
}

impl<'g, S: Source, G: Gate> Source for Passing<'g, S, G> {
    ghost remaining = { λ p. S.remaining p.source };

    ghost faults = { λ p. S.faults p.source };

    fn read(&mut self, buf: &mut [u8]) -> Result<usize, Failed> {
        let count = self.source.read(buf)?;
        if count == 0 && self.last {
            self.gate.pass(self.who, Point::QueryRead);
        }
        Ok(count)
    }
}

// The same of a source that may be there.
pub(crate) fn at_gate<'g, S, G>(
    source: Option<S>,
    gate: &'g G,
    who: u32,
    last: bool,
) -> Option<Passing<'g, S, G>>
    ensures { option_map (λ p. p.source) result ≡ source }
{
    match source {
        Some(source) => Some(Passing {
            source,
            gate,
            who,
            last,
        }),
        None => None,
    }
}

// The source itself.
pub(crate) fn source_of<'g, S, G>(passing: Option<Passing<'g, S, G>>) -> Option<S>
    ensures { result ≡ option_map (λ p. p.source) passing.entry }
{
    match passing {
        Some(
            Passing {
                source,
                gate: _,
                who: _,
                last: _,
            },
        ) => Some(source),
        None => None,
    }
}
