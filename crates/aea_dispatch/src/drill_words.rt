//! The words of a drill.

ghost use Rattle.std.specs.Prelude.{◌≡◌, [], ◌∷◌, map, string_bytes, IfSome, IfNone};
ghost use Rattle.aea_lattice.specs.declared.grid.Lattice.{Lattice};
ghost use Rattle.aea_dispatch.specs.declared.command.Command.{Command};
ghost use Rattle.aea_dispatch.specs.Words.{Means, AreNoDrill, IsDrilled};

use crate::command::Command;
use crate::numbers::number;
use aea_lattice::Lattice;

// The greatest number of nodes of a drill.
const DRILL_NODES: u32 = 65_536;

// The lattice of these numbers without fences, if it may be drilled.
fn lattice_of(alpha: u32, s: u32, p: u32, n: u32) -> Option<Lattice>
    ensures alpha { IfSome result (λ l. l.alpha ≡ alpha) }
    ensures s { IfSome result (λ l. l.s ≡ s) }
    ensures p { IfSome result (λ l. l.p ≡ p) }
    ensures n { IfSome result (λ l. l.n ≡ n) }
    ensures drilled { IfSome result IsDrilled }
    ensures none { IfNone result ((l : Lattice) → l.alpha ≡ alpha → l.s ≡ s → l.p ≡ p → l.n ≡ n → IsDrilled l → ⊥) }
{
    if n > DRILL_NODES {
        return None;
    }
    let alpha = u8::try_from(alpha).ok()?;
    let s = u8::try_from(s).ok()?;
    let p = u8::try_from(p).ok()?;
    Lattice::new(alpha, s, p, n)
}

// The lattice of these five words, if they are a drill.
fn drill_of(command: &str, alpha: &str, s: &str, p: &str, n: &str) -> Option<Lattice>
    ensures found { IfSome result (λ l. Means (command.now ∷ alpha.now ∷ s.now ∷ p.now ∷ n.now ∷ []) (Command.Drill l)) }
    ensures none { IfNone result (AreNoDrill (command.now ∷ alpha.now ∷ s.now ∷ p.now ∷ n.now ∷ [])) }
{
    if command != "drill" {
        return None;
    }
    let alpha = number(alpha)?;
    let s = number(s)?;
    let p = number(p)?;
    let n = number(n)?;
    lattice_of(alpha, s, p, n)
}

/// The lattice of the words, if they are a drill.
pub fn parse_drill(words: &[String]) -> Option<Lattice>
    ensures found { IfSome result (λ l. Means (map string_bytes words.now) (Command.Drill l)) }
    ensures none { IfNone result (AreNoDrill (map string_bytes words.now)) }
{
    let [command, alpha, s, p, n] = words else {
        return None;
    };
    drill_of(
        command.as_str(),
        alpha.as_str(),
        s.as_str(),
        p.as_str(),
        n.as_str(),
    )
}
