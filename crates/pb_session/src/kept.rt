// The studies that a session keeps.

ghost use Rattle.std.specs.Prelude.{◌≡◌, ◌<◌, ◌≤◌, ◌∷◌, option_map, slice_get, take, vec_capacity, vec_len};
ghost use Rattle.pb_book.specs.TakenOut.{touched_at};
ghost use Rattle.pb_book.specs.declared.answer.Accepted.TheVariants.{Stored};
ghost use Rattle.pb_session.specs.Kept.{most_kept};
ghost use Rattle.pb_session.specs.Keeping.{last_stage, left_by, others_than, place_in, saved_by, settled, settled_stage, stage_beside, studies_behind, untouched_studies};

use pb_book::{Accepted, Book};
use pb_study::{Stage, Study};

/// A study that is kept, with the place of its period.
#[derive(Debug, Drop)]
pub struct KeptStudy {
    pub period: u32,
    pub study: Study,
}

// The most studies that are kept.
const MOST_KEPT: usize = 4;

/// The place of the study of a period among the kept studies, if it is kept.
pub fn place_of(kept: &[KeptStudy], period: u32) -> Option<usize>
    ensures { result ≡ place_in period kept.now }
{
    kept.iter().position(|k| k.period == period)
}

/// The first stage of the study that was reported last: a stage held separately, or that of the first kept study.
pub fn last_stage<'a>(kept: &'a [KeptStudy], last: &'a Option<Stage>) -> Option<&'a Stage>
    ensures { option_map (λ stage. stage.now) result ≡ last_stage kept.now last.now }
{
    match last {
        Some(stage) => Some(stage),
        None => kept.first()?.study.stages.as_slice().first(),
    }
}

/// Drops the studies that a stored row touches: the last row of the book, if the record was stored. If the first kept study is
/// dropped, its first stage stays, as the stage that was reported last.
pub fn drop_touched(
    kept: &mut Vec<KeptStudy>,
    last: &mut Option<Stage>,
    book: &Book,
    accepted: &Accepted,
)
    ensures left { kept.new.items ≡ left_by accepted.now book.now kept.old.items }
    ensures saved { last.new ≡ saved_by accepted.now book.now kept.old.items last.old }
{
    if matches!(accepted, Accepted::Stored) {
        save_first(kept, last, book);
        retain_untouched(kept, book);
    }
}

// Removes the first kept study if the last stored row touches it, and keeps its first stage unless another stage was reported last.
fn save_first(kept: &mut Vec<KeptStudy>, last: &mut Option<Stage>, book: &Book)
    ensures others { untouched_studies book.now kept.new.items
        ≡ untouched_studies book.now kept.old.items }
    ensures saved { last.new ≡ saved_by Stored book.now kept.old.items last.old }
{
    if !kept.is_empty() && is_touched(book, kept[0].period) {
        let study = kept.remove(0).study;
        if last.is_none() {
            *last = first_of(study);
        }
    }
}

// The first stage of a study.
fn first_of(study: Study) -> Option<Stage>
    ensures { result ≡ slice_get study.stages 0 }
{
    study.stages.into_vec().into_iter().next()
}

/// Keeps the study that was written for a period, before all others: the study that was made, or the one already kept. If there are
/// too many, the last ones are dropped. If the study has several stages, only its first stage is kept, as the stage that was
/// reported last.
pub fn settle(kept: &mut Vec<KeptStudy>, last: &mut Option<Stage>, period: u32, made: Option<Study>)
    requires { vec_len kept.old < vec_capacity kept.old }
    ensures kept { kept.new.items ≡ settled period made kept.old.items }
    ensures stage { last.new ≡ settled_stage period made kept.old.items }
{
    *last = keep_written(kept, period, made);
}

// Keeps the study that was written for a period, and returns its first stage if it has several.
fn keep_written(kept: &mut Vec<KeptStudy>, period: u32, made: Option<Study>) -> Option<Stage>
    requires { vec_len kept.old < vec_capacity kept.old }
    ensures kept { kept.new.items ≡ settled period made kept.old.items }
    ensures stage { result ≡ settled_stage period made kept.old.items }
{
    match made {
        Some(study) => keep_study(kept, period, study),
        None => match place_of(kept, period) {
            Some(place) => {
                let found = kept.remove(place);
                keep_study(kept, period, found.study)
            }
            None => None,
        },
    }
}

// Keeps a study of a period before all others if it has one stage, and returns its first stage if it has several.
fn keep_study(kept: &mut Vec<KeptStudy>, period: u32, study: Study) -> Option<Stage>
    requires { vec_len kept.old < vec_capacity kept.old }
    ensures kept { kept.new.items ≡ studies_behind period study kept.old.items }
    ensures stage { result ≡ stage_beside study }
{
    drop_study(kept, period);
    if study.stages.len() != 1 {
        return first_of(study);
    }
    put_first(kept, KeptStudy { period, study });
    None
}

// Drops the study of a period, if it is kept.
fn drop_study(kept: &mut Vec<KeptStudy>, period: u32)
    ensures items { kept.new.items ≡ others_than period kept.old.items }
    ensures len { vec_len kept.new ≤ vec_len kept.old }
    ensures capacity { vec_capacity kept.new ≡ vec_capacity kept.old }
{
    kept.retain(|k| k.period != period);
}

// Puts a study before all others, and drops the last ones if there are too many.
fn put_first(kept: &mut Vec<KeptStudy>, first: KeptStudy)
    requires { vec_len kept.old < vec_capacity kept.old }
    ensures { kept.new.items ≡ take most_kept (first ∷ kept.old.items) }
{
    kept.push_reserved(first);
    kept.rotate_right(1);
    kept.truncate(MOST_KEPT);
}

// Keeps the studies of the periods that the last stored row doesn't touch.
fn retain_untouched(kept: &mut Vec<KeptStudy>, book: &Book)
    ensures { kept.new.items ≡ untouched_studies book.now kept.old.items }
{
    kept.retain(|k| !is_touched(book, k.period));
}

// Whether the last stored row touches the period at a place, if there is one.
fn is_touched(book: &Book, period: u32) -> bool
    ensures { result ≡ touched_at book.now period }
{
    period < book.periods() && book.touched(period)
}
