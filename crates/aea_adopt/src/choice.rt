// What the judgements of both copies say together.
ghost use Rattle.std.specs.Prelude.{◌≡◌, ◌≤◌};
ghost use Rattle.aea_disk.specs.Ends.{greatest_place};
ghost use Rattle.aea_disk.specs.Files.{Files};
ghost use Rattle.aea_copy_reader.specs.Judging.{IsJudged, IsGoodCopy, IsNear};
ghost use Rattle.aea_copy_reader.specs.Comparing.{IsCompared, IsComparison};
ghost use Rattle.aea_adopt.specs.Choosing.{IsChosen, IsClose};

use aea_copy_reader::{Judged, Judgement, Standing};

// The copy that has what is kept, and what a reader knows of it.
#[derive(Clone, Copy, Debug)]
pub(crate) struct Kept {
    pub(crate) source: u8,
    pub(crate) standing: Standing,
}

// No copy is begun; neither is good; both are and their texts differ; or one has what is kept.
#[derive(Clone, Copy, Debug)]
pub(crate) enum Choice {
    Off,
    Bad { first: u64, second: u64 },
    Differ { at: u64 },
    Keep(Kept),
}

// What is chosen where both copies are good: the longer one, unless they differ.
fn choose_longer(first: &Standing, second: &Standing, differ: Option<u64>) -> Choice
    requires texts { (first.now.text ≤ greatest_place) × (second.now.text ≤ greatest_place) }
    requires places { (first.now.place ≤ greatest_place) × (second.now.place ≤ greatest_place) }
    ensures chosen { (files : Files) → IsGoodCopy (files 0) (files 65) first.now → IsGoodCopy (files 0) (files 66) second.now → IsComparison (files 65) (files 66) differ → IsChosen files result }
    ensures close { IsClose result }
{
    if let Some(at) = differ {
        return Choice::Differ { at };
    }
    if first.text >= second.text {
        return Choice::Keep(Kept {
            source: 65,
            standing: *first,
        });
    }
    Choice::Keep(Kept {
        source: 66,
        standing: *second,
    })
}

// What is chosen by both judgements.
pub(crate) fn choose(judgement: &Judgement) -> Choice
    requires near { IsNear judgement.now.first × IsNear judgement.now.second }
    ensures chosen { (files : Files) → IsJudged files 65 judgement.now.first → IsJudged files 66 judgement.now.second → IsCompared files judgement.now → IsChosen files result }
    ensures close { IsClose result }
{
    match (judgement.first, judgement.second) {
        (Judged::Good(first), Judged::Good(second)) => {
            choose_longer(&first, &second, judgement.differ)
        }
        (Judged::Good(standing), Judged::Bad { at: _ }) => Choice::Keep(Kept {
            source: 65,
            standing,
        }),
        (Judged::Bad { at: _ }, Judged::Good(standing)) => Choice::Keep(Kept {
            source: 66,
            standing,
        }),
        (Judged::Bad { at: first }, Judged::Bad { at: second }) => {
            if first == 0 && second == 0 {
                return Choice::Off;
            }
            Choice::Bad { first, second }
        }
    }
}
