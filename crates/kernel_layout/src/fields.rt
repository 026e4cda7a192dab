//! Where the fields of an event are looked for by their names.
use crate::sought::Sought;
use trace_types::{Comm, SegKey};

/// The fields of an event, as they were read or as they lie in the bits. Contracts see the structure that they are, and the
/// table that has their names.
pub trait Fields: Copy {
    ghost use Rattle.std.specs.Prelude.{◌≡◌};
    ghost use Rattle.type_table.specs.Table.{Table};
    ghost use Rattle.ctf_fields.specs.declared.field.Field.{Field};
    ghost use Rattle.kernel_layout.specs.Needed.{comm, number};
    ghost use Rattle.kernel_layout.specs.Sought.{text_of};

    /// The table of their names.
    ghost table: { Self → Table };

    /// The structure of all of them.
    ghost root: { Self → Field };

    /// Whether they may be looked for.
    ghost can_tell: { Self → Type 0 };

    /// The number of the first field of this name.
    fn number(self, name: Sought) -> Option<i128>
        requires { can_tell self }
        ensures { result ≡ number (table self) (root self) (text_of name) };

    /// A thread's name, which is cut where it is longer than the kernel's.
    fn comm(self, name: Sought) -> Option<Comm>
        requires { can_tell self }
        ensures { result ≡ comm (table self) (root self) (text_of name) };
}

/// Fields among which those of a segment are looked for, too.
pub trait Segments: Fields {
    ghost use Rattle.std.specs.Prelude.{◌≡◌};
    ghost use Rattle.kernel_layout.specs.Kinds.{segment};

    /// What tells a segment from others.
    fn segment(self) -> Option<SegKey>
        requires { Self.can_tell self }
        ensures { result ≡ segment (Self.table self) (Self.root self) };
}
