//! The header of a board, as the row `group,B,uefa,0` names it: its group, its profile, and its edition.

ghost use Rattle.std.specs.Prelude.{◌≡◌, IfSome};
ghost use Rattle.ucl_screen.specs.Rows.{four_seen};
ghost use Rattle.ucl_screen.specs.Screen.{IsGroup};
ghost use Rattle.ucl_rows.specs.Rows.{fields_seen};
ghost use Rattle.ucl_live_runs.specs.Requests.{asked_header, header_by, header_said, is_asked, is_group_row};

use ucl_command::LiveArgs;
use ucl_json::BoardHeader;
use ucl_order::Profile;
use ucl_rows::RowFields;
use ucl_screen::{Four, expected_of_field, letter_in};

/// Returns the header that the last three fields of a row name: group, tie-break order and edition; None if one of them is bad.
fn header_by(four: &Four<'_>) -> Option<BoardHeader>
    ensures told { result ≡ header_by (four_seen four.now) }
    ensures letter { IfSome result (λ header. IsGroup header.group) }
{
    let group = letter_in(four.second)?;
    let profile = Profile::from_name(four.third)?;
    // It has the size of the number that is expected of a match.
    let edition = expected_of_field(four.fourth)?;
    Some(BoardHeader {
        group,
        profile,
        edition,
    })
}

/// Returns whether a row has four fields and the first is `group`; the others may be bad.
pub(crate) fn is_group_row(row: &RowFields<'_>) -> bool
    ensures { result ≡ is_group_row (fields_seen row.now) }
{
    match row {
        RowFields::Other => false,
        RowFields::Four(four) => four.first == b"group".as_slice(),
    }
}

/// Returns the header that the last three fields of a row name; None if the row has not four fields, or one of these is bad.
pub(crate) fn header_said(row: &RowFields<'_>) -> Option<BoardHeader>
    ensures told { result ≡ header_said (fields_seen row.now) }
    ensures letter { IfSome result (λ header. IsGroup header.group) }
{
    match row {
        RowFields::Other => None,
        RowFields::Four(four) => header_by(four),
    }
}

/// Returns whether a header has this group and this tie-break order; a None in their place lets any through.
pub(crate) fn is_asked(group: Option<u8>, profile: Option<Profile>, header: BoardHeader) -> bool
    ensures { result ≡ is_asked group profile header }
{
    group.unwrap_or(header.group) == header.group
        && profile.unwrap_or(header.profile) == header.profile
}

/// Returns the header of a board that no row names: the group and tie-break order of the options, else group A and UEFA's; edition 0.
#[tactic(auto, using(ucl_command::proofs::Letters::asked_letter))]
pub(crate) fn asked_header(options: &LiveArgs) -> BoardHeader
    ensures told { result ≡ asked_header options.now }
    ensures letter { IsGroup result.group }
{
    BoardHeader {
        group: options.group.unwrap_or(b'A'),
        profile: options.profile.unwrap_or(Profile::Uefa),
        edition: 0,
    }
}

/// The header of a session's board, whose group is one from A to H.
#[derive(Clone, Copy)]
pub(crate) struct HeaderState {
    pub(crate) header: BoardHeader,
    pub ghost letter: { IsGroup header.group },
}
