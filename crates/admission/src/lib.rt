// Questions 10 and 11 of a call on a key of bucket i (document 02, slip 8).
#![tactic(auto)]

ghost use Rattle.std.specs.Prelude.{◌≡◌, not};
ghost use Rattle.model.specs.Table.{kind_of};
ghost use Rattle.model.specs.Session.{hours_questions};
ghost use Rattle.model.specs.Question.{first_failed, is_absent};
ghost use Rattle.model.specs.Layout.{table_of};
ghost use Rattle.key.specs.Key.{num};
ghost use Rattle.node.specs.Refusal.{failed_of};
ghost use Rattle.on_key.specs.Answers.{Ready};
ghost use Rattle.session.specs.Hours.{hours_of};

use entry::EntryKind;
use key::Key;
use node::Refusal;
use session::Hours;
use storage::Layout;

// Internal: the two questions. The key is looked for in the bucket as it is stored, nothing applied. With an empty window list neither is
// asked.
pub fn asked(s: &[u8; Layout::STORAGE], i: usize, key: Key, hours: Hours) -> Result<(), Refusal>
    requires { Ready s.now i }
    ensures { failed_of result ≡ first_failed (hours_questions (hours_of hours.entry) (not (is_absent (kind_of (num key) ((table_of s.now).buckets i))))) }
{
    if hours.windows.is_empty() {
        return Ok(());
    }
    let kind = entry::kind_of(&buckets::load_bucket(s, i), key);
    let known = !matches!(kind, EntryKind::Absent);
    session::asked(hours, known)
}
