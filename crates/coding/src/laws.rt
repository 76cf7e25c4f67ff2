//! What holds of every coding and of the two codings here, as contracts of calls that do nothing.
ghost use Rattle.coding.specs.Statements.{Decodes, Encodes, Marks, KeepsLaws, Inverse, Sizes};

/// Codings work group by group, and every layer of a coding keeps the three laws.
pub fn layers_hold()
    ensures decodes { Decodes }
    ensures encodes { Encodes }
    ensures marks { Marks }
    ensures keeps { KeepsLaws }
{}

/// Manchester's decoding is the inverse of its table, over the whole table.
pub fn table_holds()
    ensures { Inverse }
{}

/// The units and counts of Manchester and Block.
pub fn sizes_hold()
    ensures { Sizes }
{}
