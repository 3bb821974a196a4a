//! The attachment of a session that was opened earlier.

ghost use Rattle.std.specs.Prelude.{◌≡◌};
ghost use Rattle.zconnections.specs.attachments.Attachments.{restored_attachment};

use crate::attachments::attachment::Attachment;

/// Returns the attachment of a session without a connection.
pub(crate) fn restored() -> Attachment
    ensures { result ≡ restored_attachment }
{
    Attachment {
        connection: None,
        is_touched: true,
        was_touched: false,
        made_ephemeral: true,
    }
}
