//! What a call reports of a row, of a page of rows, and of a replica.

ghost use Rattle.hk_handle.specs.Pages.{TellsNothing};

/// Whether there is a row, its tag, and how many bytes its body has.
#[repr(C)]
#[derive(Drop)]
pub struct Found {
    pub row: bool,
    pub tag: u32,
    pub len: usize,
}

/// The range of a replica's readable times, and how many operations it has done.
#[repr(C)]
#[derive(Drop)]
pub struct Bounds {
    pub horizon: u64,
    pub readable: u64,
    pub ops: u64,
}

/// Whether other rows follow a page, how many rows it has, the key of its last row, or 0 where it has none, and how many
/// bytes its rows have.
#[repr(C)]
#[derive(Drop)]
pub struct Paged {
    pub more: bool,
    pub rows: usize,
    pub last: u64,
    pub len: usize,
}

impl Paged {
    /// That of no page.
    pub fn nothing() -> Paged
        ensures { TellsNothing result }
    {
        Paged {
            more: false,
            rows: 0,
            last: 0,
            len: 0,
        }
    }
}
