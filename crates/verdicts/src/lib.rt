// The verdict on a plug, with its reasons.
#![tactic(auto)]

ghost use Rattle.std.specs.Prelude.{◌≡◌};
ghost use Rattle.turns.specs.Keys.{point_of};
ghost use Rattle.rounds.specs.Boxes.{boxes_of};
ghost use Rattle.rounds.specs.Replies.{reply_of};
ghost use Rattle.views.specs.Looking.{view_of};
ghost use Rattle.verdicts.specs.Verdicts.{Judged, VerdictIs, verdict_word, verdict_on};
ghost use Rattle.verdicts.specs.Answers.{verdict_from, verdict_of, word_only};

use boxes::Boxes;
use plane::Point;
use rounds::{Corner, Reasons, Refusal, Word};
use turns::Key;

// The verdict on a plug.
#[derive(Clone, Copy, Debug, PartialEq, Eq)]
pub enum Verdict {
    Inside,
    Outside,
    Undecided(Reasons),
}

impl Verdict {
    // The verdict's word.
    pub fn word(self) -> Word
        ensures { result ≡ verdict_word self }
    {
        match self {
            Verdict::Inside => Word::Inside,
            Verdict::Outside => Word::Outside,
            Verdict::Undecided(_) => Word::Undecided,
        }
    }
}

// The verdict on a plug of accepted boxes: outside if no three corners balance, inside if no corner gives a direction.
// Most plugs outside are so by one line, which is tried first.
fn judge(boxes: Boxes, plug: Key) -> Verdict
    ensures exact { result ≡ verdict_from plug (boxes_of boxes.entry.numbers.now)
        (view_of plug Corner.SouthWest (boxes_of boxes.entry.numbers.now)) }
    ensures judged { Judged (boxes_of boxes.entry.numbers.now) (point_of plug) result }
{
    let view = views::view_of(boxes, Corner::SouthWest, plug);
    if separating_lines::is_separated(boxes, view.cone, plug) {
        return Verdict::Outside;
    }
    let Some(entries) = balances::balance_of(boxes, plug, &view) else {
        return Verdict::Outside;
    };
    let Some(direction) = supports::support_of(boxes, plug, &view) else {
        return Verdict::Inside;
    };
    // The entries stand one by one in the reasons, as C and the other callers read them.
    Verdict::Undecided(Reasons {
        direction,
        first: entries.first,
        second: entries.second,
        third: entries.third,
    })
}

// The verdict on a plug, with its reasons where it is undecided.
pub fn verdict_on(numbers: &[i32], plug: Point) -> Result<Verdict, Refusal>
    ensures { VerdictIs numbers.now plug result × (result ≡ verdict_of numbers.now plug) }
{
    let boxes = checks::check_verdict(numbers, plug)?;
    Ok(judge(boxes, Key::new(plug)))
}

// The verdict's word alone.
pub fn word_on(numbers: &[i32], plug: Point) -> Result<Word, Refusal>
    ensures { (reply_of result ≡ verdict_on numbers.now plug)
        × (result ≡ word_only (verdict_of numbers.now plug)) }
{
    Ok(verdict_on(numbers, plug)?.word())
}
