// A list of calls of one run, made one after the other.
ghost use Rattle.std.specs.Prelude.{◌≡◌, IfOk, IfErr, MatchOption, drop, length, map, min, take};
ghost use Rattle.columns.specs.Open.{OthersStay};
ghost use Rattle.runs.specs.Agreement.{EachHash};
ghost use Rattle.runs.specs.Calls.{Answered, Made, begin_rows, bytes_at, lent_of, made, reply_of, request_of, requests_of, stage_run, taken_entries};
ghost use Rattle.runs.specs.Lasting.{Lasts};
ghost use Rattle.runs.specs.Ledger.{begun};
ghost use Rattle.runs.specs.Open.{opened, opens};
ghost use Rattle.runs.specs.Refusals.{begin_refusal};
ghost use Rattle.runs.specs.Requests.{keep, read};
ghost use Rattle.runs.specs.Runs.{fault_of, selects};
ghost use Rattle.runs.specs.State.{step, told};

use crate::account::WorkAccount;
use crate::call::{Answer, Call, Lent, Replayed, Stage, Trace};
use crate::fault::RunFault;
use crate::run::NewRun;
use columns::Selection;
use hash_state::HashState;
use image::place::Image;

// The image at a place, or the empty one where there is no such place.
fn image_at<'a>(images: &[&Image<'a>], place: usize) -> Image<'a>
    ensures { result.bytes.now ≡ bytes_at images.now place }
{
    if place >= images.len() {
        return Image::empty();
    }
    *images[place]
}

// A column over the words that it is lent of all there are.
fn make_column<S: HashState>(
    stage: Stage,
    selection: Selection<'_>,
    lent: Lent,
    state: &S,
    entries: &mut [u64],
    work: &mut [u64],
) -> (Stage, Answer)
    ensures answer { reply_of result.1 ≡ told (stage_run stage entries.old) (selects selection.entry (lent_of (length entries.old) (length work.old) lent)) }
    ensures state { stage_run result.0 entries.new ≡ step (S.BuildHasher.one state.now) (S.HashState.seeded state.now) (stage_run stage entries.old) (selects selection.entry (lent_of (length entries.old) (length work.old) lent)) }
    ensures work { OthersStay (opens (selects selection.entry (lent_of (length entries.old) (length work.old) lent)) (reply_of result.1)) work.old work.new }
{
    let room = lent.entries.min(entries.len());
    let words = lent.work.min(work.len());
    let mut account = WorkAccount {
        claimed: lent.claimed,
    };
    stage.column(
        selection,
        state,
        &mut entries[..room],
        &mut work[..words],
        &mut account,
    )
}

// A keep, in the same way.
fn make_keep(
    stage: Stage,
    list: &[u32],
    lent: Lent,
    entries: &mut [u64],
    work: &mut [u64],
) -> (Stage, Answer)
    ensures answer { reply_of result.1 ≡ told (stage_run stage entries.old) (keep list.now (lent_of (length entries.old) (length work.old) lent)) }
    ensures state { EachHash (λ ONE SEED. stage_run result.0 entries.new ≡ step ONE SEED (stage_run stage entries.old) (keep list.now (lent_of (length entries.old) (length work.old) lent))) }
    ensures work { OthersStay (opens (keep list.now (lent_of (length entries.old) (length work.old) lent)) (reply_of result.1)) work.old work.new }
{
    let room = lent.entries.min(entries.len());
    let words = lent.work.min(work.len());
    let mut account = WorkAccount {
        claimed: lent.claimed,
    };
    stage.keep(list, &mut entries[..room], &mut work[..words], &mut account)
}

// None where a read meets a run that has accepted no column.
fn make_read(stage: &Stage, row: u64, room: usize, entries: &[u64]) -> Option<Answer>
    ensures { Answered (stage_run stage.now entries.now) (read row (min room (length entries.now))) result }
{
    stage.read(row, &entries[..room.min(entries.len())])
}

// One call, and its answer unless it is a misuse.
fn make<S: HashState>(
    stage: Stage,
    call: Call<'_>,
    images: &[&Image<'_>],
    state: &S,
    entries: &mut [u64],
    work: &mut [u64],
) -> (Stage, Option<Answer>)
    ensures made { Made (S.BuildHasher.one state.now) (S.HashState.seeded state.now) (stage_run stage entries.old) (request_of images.now (length entries.old) (length work.old) call.entry) result.1 (stage_run result.0 entries.new) }
    ensures work { MatchOption result.1 (work.new ≡ work.old) (λ answer. OthersStay (opens (request_of images.now (length entries.old) (length work.old) call.entry) (reply_of answer)) work.old work.new) }
{
    match call {
        Call::Column {
            image,
            node,
            list,
            lent,
        } => {
            let image = image_at(images, image);
            let selection = Selection {
                image: &image,
                node,
                list,
            };
            let (stage, answer) = make_column(stage, selection, lent, state, entries, work);
            (stage, Some(answer))
        }
        Call::Keep { list, lent } => {
            let (stage, answer) = make_keep(stage, list, lent, entries, work);
            (stage, Some(answer))
        }
        Call::Read { row, entries: room } => {
            let answer = make_read(&stage, row, room, entries);
            (stage, answer)
        }
    }
}

// The calls of a run that begin gave, as many as there are places for answers, each answer in its place.
fn make_all<S: HashState>(
    run: NewRun,
    trace: Trace<'_, '_>,
    state: &S,
    entries: &mut [u64],
    work: &mut [u64],
    answers: &mut [Answer],
) -> Replayed
    requires { run.rows ≡ begin_rows trace entries.old }
    ensures made { result.made ≡ made (begun (taken_entries trace.entry entries.old)) (requests_of trace.entry entries.old work.old answers.old) }
    ensures lasting { Lasts (S.BuildHasher.one state.now) (S.HashState.seeded state.now) trace.entry entries.old work.old answers.old result entries.new answers.new }
    ensures behind { drop result.made answers.new ≡ drop result.made answers.old }
    ensures work { OthersStay (opened (take result.made (requests_of trace.entry entries.old work.old answers.old)) (map reply_of (take result.made answers.new))) work.old work.new }
{
    let mut stage = Stage::New(run);
    let count = trace.calls.len().min(answers.len());
    for made in 0..count {
        let (next, answer) = make(stage, trace.calls[made], trace.images, state, entries, work);
        stage = next;
        let Some(answer) = answer else {
            return Replayed { stage, made };
        };
        answers[made] = answer;
    }
    Replayed { stage, made: count }
}

// Makes a run of the first words of the entries, and then the calls of a trace, as many as there are places for
// answers; each answer comes to its call's place, and places behind the calls that were made keep what they hold. A
// read that meets a run without a column is none of the calls, and ends them. A refusal is begin's, 11, and nothing has
// changed.
pub fn replay<S: HashState>(
    trace: Trace<'_, '_>,
    state: &S,
    entries: &mut [u64],
    work: &mut [u64],
    answers: &mut [Answer],
) -> Result<Replayed, RunFault>
    ensures refused { fault_of result ≡ begin_refusal (begin_rows trace.entry entries.old) }
    ensures made { IfOk result (λ r. r.made ≡ made (begun (taken_entries trace.entry entries.old)) (requests_of trace.entry entries.old work.old answers.old)) }
    ensures lasting { IfOk result (λ r. Lasts (S.BuildHasher.one state.now) (S.HashState.seeded state.now) trace.entry entries.old work.old answers.old r entries.new answers.new) }
    ensures behind { IfOk result (λ r. drop r.made answers.new ≡ drop r.made answers.old) }
    ensures work { IfOk result (λ r. OthersStay (opened (take r.made (requests_of trace.entry entries.old work.old answers.old)) (map reply_of (take r.made answers.new))) work.old work.new) }
    ensures unchanged { IfErr result (λ _. (entries.new ≡ entries.old) × (work.new ≡ work.old) × (answers.new ≡ answers.old)) }
{
    let run = NewRun::begin(&entries[..trace.rows.min(entries.len())])?;
    Ok(make_all(run, trace, state, entries, work, answers))
}
