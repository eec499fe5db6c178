ghost use Rattle.std.specs.Prelude.{◌≡◌};
ghost use Rattle.records.specs.Columns.{key_of, with_key};

use crate::column::Column;

/// A record of the lent table: a resident's key and value, and a key that Ghost remembers.
#[derive(Clone, Copy)]
pub struct Record<K, V> {
    pub key: K,
    pub value: V,
    pub remembered: K,
}

impl<K: Copy, V: Copy> Record<K, V> {
    /// The record's key in a column.
    pub(crate) fn in_column(&self, column: Column) -> K
        ensures { result ≡ key_of column self.now }
    {
        match column {
            Column::Resident => self.key,
            Column::Remembered => self.remembered,
        }
    }

    /// The key in a column becomes another; what else the record holds stays where it lies.
    pub(crate) fn rekey(&mut self, column: Column, key: K)
        ensures { self.new ≡ with_key column key self.old }
    {
        match column {
            Column::Resident => self.key = key,
            Column::Remembered => self.remembered = key,
        }
    }
}
