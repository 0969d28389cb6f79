//! The fields of a request.

/// The field that a request is refused for: each variant is the field of that name.
#[derive(Clone, Copy, PartialEq, Eq, Debug)]
pub enum Field {
    /// No field: the line isn't an object.
    Object,
    Id,
    Op,
    Doc,
    Label,
    Bytes,
    Bom,
    Rev,
    At,
    Del,
    Len,
    From,
    To,
    Mode,
    Max,
    Offset,
    Line,
    Character,
    Unit,
    Value,
    Range,
    Text,
    Changes,
}

/// Reads a field. If it holds nothing of its kind, the calling function returns the refusal.
macro_rules! need {
    ($refusal:expr, $found:expr) => {
        match $found {
            Some(found) => found,
            None => return Err($refusal),
        }
    };
}

/// Reads the command of an op: the name of its document, then its fields, each by its reader, in the order
/// of their checks. At the first field that holds nothing of its kind, the calling function returns that
/// field.
macro_rules! command {
    ($op:ident, $value:expr, { $($name:ident: $field:ident = $found:expr,)* }) => {{
        let doc = match $crate::request::fields::name($value) {
            Some(doc) => doc,
            None => return Err($crate::request::Field::Doc),
        };
        $(let $name = match $found {
            Some(found) => found,
            None => return Err($crate::request::Field::$field),
        };)*
        Ok(desk::Command::$op(desk::ops::$op { doc, $($name),* }))
    }};
}

pub(crate) use command;
pub(crate) use need;
