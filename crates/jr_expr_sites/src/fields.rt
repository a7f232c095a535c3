//! Rows of fields by key.
ghost use Rattle.std.specs.Prelude.{◌≡◌};
ghost use Rattle.jr_table.specs.Decls.{field_decl};
ghost use Rattle.jr_table.specs.Entries.{number_of};
ghost use Rattle.jr_table.specs.KeyView.{field_key_of};

use jr_table::{FieldKey, Table, Wanted};

/// The number of a field's row. Only the class's rows of the name are looked at.
pub fn field_number(table: &Table, key: &FieldKey) -> Option<u32>
    ensures { result ≡ number_of table.now (field_decl (field_key_of key.now)) }
{
    table.keeps_rows();
    match table.class_number(&key.class) {
        None => None,
        Some(class) => table.own(class, &Wanted::Field(key.name.as_str())),
    }
}
