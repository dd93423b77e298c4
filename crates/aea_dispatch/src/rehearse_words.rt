//! The words of a rehearsal.

ghost use Rattle.std.specs.Prelude.{◌≡◌, ◌≤◌, [], ◌∷◌, false, map, codes, string_bytes, IsTrue, IfSome, IfNone};
ghost use Rattle.aea_dispatch.specs.declared.command.Command.{Command};
ghost use Rattle.aea_dispatch.specs.Words.{Means, AreNoRehearsal};

use crate::command::Command;
use crate::numbers::{long_number, number};

// Whether there may be a rehearsal with so many nodes and so many blocks in a thousand.
fn is_within(nodes: u32, permille: u32) -> bool
    ensures within { IsTrue result → (1 ≤ nodes) × (nodes ≤ 2000) × (permille ≤ 1000) }
    ensures outside { result ≡ false → 1 ≤ nodes → nodes ≤ 2000 → permille ≤ 1000 → ⊥ }
{
    1 <= nodes && nodes <= 2000 && permille <= 1000
}

// The rehearsal of these three words, if they are one.
fn numbered_rehearsal(from: &str, nodes: &str, permille: &str) -> Option<Command>
    ensures found { IfSome result (Means (codes "rehearse" ∷ from.now ∷ nodes.now ∷ permille.now ∷ [])) }
    ensures none { IfNone result (AreNoRehearsal (codes "rehearse" ∷ from.now ∷ nodes.now ∷ permille.now ∷ [])) }
{
    let from = long_number(from)?;
    let nodes = number(nodes)?;
    let permille = number(permille)?;
    if is_within(nodes, permille) {
        Some(Command::Rehearse {
            number: from,
            nodes,
            permille,
        })
    } else {
        None
    }
}

/// The command of the words, if they are a rehearsal.
pub fn parse_rehearse(words: &[String]) -> Option<Command>
    ensures found { IfSome result (Means (map string_bytes words.now)) }
    ensures none { IfNone result (AreNoRehearsal (map string_bytes words.now)) }
{
    let [command, from, nodes, permille] = words else {
        return None;
    };
    if command.as_str() != "rehearse" {
        return None;
    }
    numbered_rehearsal(from.as_str(), nodes.as_str(), permille.as_str())
}
