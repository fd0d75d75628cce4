// Whether the packed term of a kind can hold a term, and the term put into a buffer in that form.
ghost use Rattle.std.specs.Prelude.{◌≡◌, ◌+◌, ◌≤◌, length};
ghost use Rattle.kind.specs.Kind.{term_bytes};
ghost use Rattle.lent.specs.Put.{Put};
ghost use Rattle.term.specs.Bounds.{WithinKind};
ghost use Rattle.term.specs.Tables.{pack_term};
ghost use Rattle.convert.specs.Form.{old_form, has_form};

use term::Term;

#[tactic(auto, unfolding(crate::specs::Form::old_form))]
fn old_form(term: Term) -> bool
    ensures { result ≡ old_form term }
{
    term.c <= 3
        && term.factor == term::plain_factor(term.c)
        && 0 < term.d
        && term.d <= 15
        && term.t <= 24
}

#[tactic(auto, unfolding(crate::specs::Form::has_form))]
pub fn has_form(to: u64, term: Term) -> bool
    ensures { result ≡ has_form to term }
{
    to == 58 || old_form(term)
}

pub fn put_form(to: u64, out: &mut [u8], at: usize, term: Term) -> usize
    requires { (at + term_bytes to ≤ length out.old) × WithinKind to term }
    ensures { Put out.old at (pack_term to term) out.new result }
{
    if to == 58 {
        term::put_long(out, at, term)
    } else {
        term::put_term(out, at, term)
    }
}
