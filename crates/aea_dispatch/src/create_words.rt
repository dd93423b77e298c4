//! The words that make an archive.

ghost use Rattle.std.specs.Prelude.{◌≡◌, [], ◌∷◌, map, codes, string_bytes, IfSome, IfNone};
ghost use Rattle.aea_lattice.specs.declared.shape.Shape.{Shape};
ghost use Rattle.aea_dispatch.specs.Words.{Means, AreNoCreate};

use crate::command::Command;
use crate::numbers::number;
use aea_lattice::Shape;

// The shape of these numbers, if there is one.
fn shape_of(alpha: u32, s: u32, p: u32, block: u32, sites: u32) -> Option<Shape>
    ensures alpha { IfSome result (λ shape. shape.alpha ≡ alpha) }
    ensures s { IfSome result (λ shape. shape.s ≡ s) }
    ensures p { IfSome result (λ shape. shape.p ≡ p) }
    ensures block { IfSome result (λ shape. shape.block ≡ block) }
    ensures sites { IfSome result (λ shape. shape.sites ≡ sites) }
    ensures none { IfNone result ((shape : Shape) → shape.alpha ≡ alpha → shape.s ≡ s → shape.p ≡ p → shape.block ≡ block → shape.sites ≡ sites → ⊥) }
{
    let alpha = u8::try_from(alpha).ok()?;
    let s = u8::try_from(s).ok()?;
    let p = u8::try_from(p).ok()?;
    let sites = u8::try_from(sites).ok()?;
    Shape::new(alpha, s, p, block, sites)
}

// The shape of these five words.
fn numbered_shape(alpha: &str, s: &str, p: &str, block: &str, sites: &str) -> Option<Shape>
    ensures found { IfSome result (λ shape. Means (codes "create" ∷ alpha.now ∷ s.now ∷ p.now ∷ block.now ∷ sites.now ∷ []) (Command.Create shape)) }
    ensures none { IfNone result (AreNoCreate (codes "create" ∷ alpha.now ∷ s.now ∷ p.now ∷ block.now ∷ sites.now ∷ [])) }
{
    let alpha = number(alpha)?;
    let s = number(s)?;
    let p = number(p)?;
    let block = number(block)?;
    let sites = number(sites)?;
    shape_of(alpha, s, p, block, sites)
}

/// The shape of the words, if they make an archive.
pub fn parse_create(words: &[String]) -> Option<Shape>
    ensures found { IfSome result (λ shape. Means (map string_bytes words.now) (Command.Create shape)) }
    ensures none { IfNone result (AreNoCreate (map string_bytes words.now)) }
{
    let [command, alpha, s, p, block, sites] = words else {
        return None;
    };
    if command.as_str() != "create" {
        return None;
    }
    numbered_shape(
        alpha.as_str(),
        s.as_str(),
        p.as_str(),
        block.as_str(),
        sites.as_str(),
    )
}
