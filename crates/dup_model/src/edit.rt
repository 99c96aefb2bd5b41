use dup_lists::Listed;
use dup_names::{Key, Name, Text};
use dup_template::SharedBody;

/// What a change says: the texts of a row's named fields, that the row goes, or a template's new body.
#[derive(Debug, Drop, PartialEq, Eq)]
pub enum Edit {
    Put {
        kind: Name,
        key: Key,
        fields: Listed<(Name, Text)>,
    },
    Remove {
        kind: Name,
        key: Key,
    },
    Replace {
        template: Name,
        body: SharedBody,
    },
}
