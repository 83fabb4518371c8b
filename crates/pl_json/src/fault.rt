use pl_value::JsonFault;
use thiserror::Error;

/// Why a JSON value is no object of values.
#[derive(Debug, Drop, Error)]
pub enum FieldsFault {
    /// It is another kind of value than an object, or it spells a secret.
    #[error("no object of values")]
    WrongKind,
    #[error("{0}")]
    Json(JsonFault),
}
