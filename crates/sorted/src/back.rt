// What was locked, for the caller: one lease for each key, in the caller's order, or the refusal's position. The leases
// of one call have one boot number, the head's.
// Functions with a `requires` are parts: calls have tested the shape, and a part tests nothing twice.
// Nothing here is reached from outside the crate.
ghost use Rattle.std.specs.Prelude.{◌≡◌, ◌*◌, length};
ghost use Rattle.model.specs.Arena.{holds_of, words_of};
ghost use Rattle.model.specs.Sorted.{hold_on, shared_of};
ghost use Rattle.sorted.specs.Marks.{Marked};
ghost use Rattle.sorted.specs.Back.{back_of, Placed};

use crate::marks::{entry_of, mark_of, marks_of};
use crate::order::first_asking;
use types::{Answer, Ended, Head, Hold, ScriptReply};

// The lease of a cell, without its boot number; the marks say where to begin.
// (a) Zeros where there is none: `hold_on` of `model` answers so.
fn hold_on(leases: &[u32], marks: &[u8; 256], cell: u32) -> Hold
    requires { Marked 3 marks.now leases.now 0 }
    ensures { result ≡ hold_on (holds_of leases.now) cell }
{
    match entry_of::<3>(leases, mark_of(marks, cell), cell) {
        Some(i) => Hold {
            cell,
            serial: leases[3 * i + 1],
        },
        None => Hold { cell: 0, serial: 0 },
    }
}

// One lease for each key; keys of one cell share one.
#[tactic(auto, unfolding(model::specs::Arena::words_of, model::specs::Sorted::shared_of))]
fn share(boot: u32, asked: &[u32], leases: &[u32], grants: &mut [u32])
    requires { length grants.old ≡ 3 * length asked.now }
    ensures { grants.new
        ≡ words_of boot (shared_of (holds_of leases.now) asked.now) }
{
    let marks = marks_of::<3>(leases);
    for (i, &cell) in asked.iter().enumerate() {
        let hold = hold_on(leases, &marks, cell);
        grants[3 * i] = hold.cell;
        grants[3 * i + 1] = hold.serial;
        grants[3 * i + 2] = boot;
    }
}

// The caller's buffer and answer, from what multi-lock's parts came to.
pub fn finish(
    head: Head,
    ended: Ended,
    asked: &[u32],
    sorted: &[u32],
    leases: &[u32],
    grants: &mut [u32],
) -> ScriptReply
    requires { (length grants.old ≡ 3 * length asked.now) × Placed (length sorted.now) ended.answer }
    ensures { (result, grants.new) ≡ back_of head ended asked.now sorted.now
        leases.now grants.old }
{
    let run = ended.run;
    match ended.answer {
        Answer::AllGranted => {
            share(head.boot, asked, leases, grants);
            foreign::script_reply(head, run, Answer::AllGranted)
        }
        Answer::RefusedAt(refusal, q) => {
            let p = first_asking(asked, 0, sorted[q]);
            foreign::script_reply(head, run, Answer::RefusedAt(refusal, p))
        }
        answer => foreign::script_reply(head, run, answer),
    }
}
