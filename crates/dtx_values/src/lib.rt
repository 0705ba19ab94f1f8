//! The values of the transaction manager: numbers with a range, the calls and lines of a script, the entries
//! of a history, the messages between the two sides, and the small collections that contracts see as lists.
#![tactic(auto)]

mod call;
mod end;
mod entry;
mod identifier;
mod info;
mod limits;
mod lines;
mod message;
mod note;
mod number;
mod order;
mod outbox;
mod pair;
mod record;
mod resource;
mod row;
mod scope;
mod script;
mod trace;
mod tx_id;
mod words;

pub use call::Call;
pub use end::End;
pub use entry::{Answer, Ask, Entry, LogNote, Party, Request, ScopeNote};
pub use identifier::{is_identifier, read_identifier};
pub use info::{BadInfo, parse_info, write_info};
pub use limits::{
    CALLS, CLONES, CONNECTIONS, DURABLES, ENLISTMENTS, LINE_BYTES, ROOM, SCOPES, SCRIPT_BYTES,
};
pub use lines::{has_line, is_opening};
pub use message::{Conn, Dir, Info, Message};
pub use note::{Note, Plan, Reply};
pub use number::{ActorNo, CloneNo, EnlNo, RmNo, ScopeNo, TxNo};
pub use order::{Numbered, insert_in_order, place_in_order};
pub use outbox::Outbox;
pub use pair::{read_pair, write_pair};
pub use record::{Differs, LogRecord};
pub use resource::Resource;
pub use row::{CloneRow, Row};
pub use scope::{Closed, Entered, OpenScope};
pub use script::{BadCause, Body, EnlistOption, Line, Opening, Script, Support};
pub use trace::{Place, Trace};
pub use tx_id::TxId;
pub use words::{
    Cause, Class, CloneKind, Image, Iso, IsoWord, Outcome, ScopeOption, Status, Timeout, Vote,
};
