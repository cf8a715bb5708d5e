//! What holds of index files, whatever the code.

ghost use Rattle.reg_service_index.specs.Found.{FilesAreRows};

use reg_tables_represent::laws::entries_law;

/// The lines of a crate's rows are its index file.
pub fn file_law()
    ensures { FilesAreRows }
{
    entries_law();
}
