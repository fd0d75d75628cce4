// The slice of terms: lent by the caller, or of this crate's own. The only functions that hold a reference to it.
ghost use Rattle.std.specs.Prelude.{◌≡◌, ◌++◌, ◌≤◌, suc, length, take, drop};
ghost use Rattle.quick.specs.Lent.{plain_reply, Stated};
ghost use Rattle.quick.specs.Reading.{ReplyNumbers};

use crate::replies::quick;
use crate::unpacked::{BLANK, Unpacked};
use crate::{Question, Reply};
use term::Term;
use verdict::Setting;

// The first `count` terms of a list at the front of the slice; the places behind them stay.
fn lay(list: &[Term; 64], count: usize, terms: &mut [Term])
    requires { (count ≤ 64) × (count ≤ length terms.old) }
    ensures { terms.new ≡ take count list.now ++ drop count terms.old }
{
    terms[..count].copy_from_slice(&list[..count]);
}

// The reply where none of 19, 29, 1 and 2 refuses.
fn ask_at(setting: Setting, terms: &mut [Term], question: Question) -> Reply
    ensures { Stated (suc setting.entry.v) setting.entry.table.kind setting.entry.table.bytes.now terms.old terms.new question result }
{
    let count = setting.table.count();
    if terms.len() < count {
        return Reply::Short;
    }
    let unpacked = Unpacked::of(setting);
    lay(&unpacked.list, count, terms);
    quick(&unpacked, question)
}

// The reply to a question with a lent slice.
pub fn ask(width: u64, kind: u64, table: &[u8], terms: &mut [Term], question: Question) -> Reply
    ensures stated { Stated width kind table.now terms.old terms.new question result }
    ensures table_stays { table.exit.now ≡ table.entry.now }
{
    match Setting::check(width, kind, table) {
        Ok(setting) => ask_at(setting, terms, question),
        Err(why) => question.refused(why),
    }
}

// The reply with a slice of 64 terms of its own, which holds every sound table.
pub fn ask_own(width: u64, kind: u64, table: &[u8], question: Question) -> Reply
    ensures value { (result ≡ plain_reply width kind table.now question) × ReplyNumbers result }
    ensures table_stays { table.exit.now ≡ table.entry.now }
{
    let mut terms = [BLANK; 64];
    ask(width, kind, table, &mut terms, question)
}
