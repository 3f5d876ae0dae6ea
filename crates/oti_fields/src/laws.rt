// The laws of the spelling.
ghost use Rattle.oti_fields.specs.Laws.{FieldsAreOne, IdIsOne, IdIsSpelled};

/// Bytes spell one transmission information at most, and one identifier at most; any four bytes
/// spell an identifier.
pub fn fields_have_one_spelling()
    ensures fields { FieldsAreOne }
    ensures id { IdIsOne }
    ensures spelled { IdIsSpelled }
{}
