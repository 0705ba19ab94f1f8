//! The replies of resource managers' objects.
ghost use Rattle.std.specs.Prelude.{◌≡◌};
ghost use Rattle.dtx_model.specs.Replies.{fits};

use dtx_values::{Note, Reply};

/// Whether the reply fits the note.
pub fn fits(r: Reply, n: Note) -> bool
    ensures { result ≡ fits r n }
{
    matches!(
        (r, n),
        (Reply::Vote(_), Note::Prepare)
            | (Reply::Promote(_), Note::Promote)
            | (Reply::Owner(_), Note::Hand | Note::Single)
            | (Reply::Ack, Note::Commit)
    )
}
