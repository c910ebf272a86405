//! What a schema says: the table, its columns, and the lines that frame its changes.
use dictionary::{Kind, View};
use std::alloc::Global;

/// What the fields of a column are in a change.
#[derive(Clone, Copy, Debug, PartialEq, Eq)]
pub enum Role {
    /// The valid time.
    Valid,
    /// The revision, which is the system time.
    Revision,
    /// The next column of the row.
    Row,
    /// The difference.
    Weight,
}

impl Role {
    /// The word that names the role in a schema.
    pub fn word(self) -> &'static str {
        match self {
            Role::Valid => "valid",
            Role::Revision => "revision",
            Role::Row => "row",
            Role::Weight => "weight",
        }
    }

    /// The role that the word names.
    pub fn of(word: &str) -> Option<Role> {
        match word {
            "valid" => Some(Role::Valid),
            "revision" => Some(Role::Revision),
            "row" => Some(Role::Row),
            "weight" => Some(Role::Weight),
            _ => None,
        }
    }

    /// Whether a column of this role may be of this kind: times are whole numbers or dates, and a
    /// weight is a number.
    pub fn takes(self, kind: Kind) -> bool {
        match self {
            Role::Row => true,
            Role::Weight => matches!(kind, Kind::Whole | Kind::Signed | Kind::Decimal(_)),
            Role::Valid | Role::Revision => matches!(kind, Kind::Whole | Kind::Date),
        }
    }
}

/// A column of the CSV file that the import reads.
#[derive(Drop)]
pub struct SchemaColumn {
    /// Its title.
    pub title: String,
    /// What its fields are.
    pub role: Role,
    /// What they are written in.
    pub kind: Kind,
}

/// A schema: how a CSV file becomes a command file.
#[derive(Drop)]
pub struct Schema {
    /// The name of the table's input.
    pub table: String,
    /// The columns that are read, in the order of the schema.
    pub columns: Vec<SchemaColumn>,
    /// The lines between the declaration of the input and `start`.
    pub plan: Vec<String>,
    /// The lines after the changes.
    pub asks: Vec<String>,
    /// The columns of views, with their titles.
    pub views: Vec<View>,
}

impl Schema {
    pub(crate) fn new(alloc: Global) -> Schema {
        Schema {
            table: String::new(alloc),
            columns: Vec::new(alloc),
            plan: Vec::new(alloc),
            asks: Vec::new(alloc),
            views: Vec::new(alloc),
        }
    }

    /// How many columns have this role.
    pub fn count(&self, role: Role) -> usize {
        self.columns
            .iter()
            .filter(|column| column.role == role)
            .count()
    }

    /// The kind of the column of this role; whole numbers if there is none.
    pub fn kind_of(&self, role: Role) -> Kind {
        match self.columns.iter().find(|column| column.role == role) {
            Some(column) => column.kind,
            None => Kind::Whole,
        }
    }
}
