//! What one store and one load do, for a table's words and for their parts.

ghost use Rattle.word_rows.specs.MemoryLaws.{LoadsAreShown, LoadsGoOn, StoresAreRead, StoresAreShown, StoresGoOn, ZerosAreBlank};

/// A store is read back and changes no other word; the list of words and the memory by its parts go on as one.
pub fn memory_laws()
    ensures stores_are_read { StoresAreRead }
    ensures stores_are_shown { StoresAreShown }
    ensures loads_are_shown { LoadsAreShown }
    ensures zeros_are_blank { ZerosAreBlank }
    ensures loads_go_on { LoadsGoOn }
    ensures stores_go_on { StoresGoOn }
{}
