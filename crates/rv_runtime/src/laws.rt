//! What the routines do.

ghost use Rattle.rv_runtime.specs.Laws.{RoutinesStand, HeapBegins, BlocksFit, RoutinesWork, StartLeads, ExitEnds};

/// Where the bytes of `runtime` stand in a text that is executable, so do the routines.
pub fn routines_stand()
    ensures { RoutinesStand }
{}

/// Where the bytes of `runtime_data` stand, the whole heap is unused.
pub fn heap_begins()
    ensures { HeapBegins }
{}

/// What MALLOC and CALLOC give is a multiple of 16 in the heap, has room for what was asked for, and begins where the heap was unused; from behind it on the
/// heap is unused still.
pub fn blocks_fit()
    ensures { BlocksFit }
{}

/// Entered at its first word, each of the routines from MALLOC to COMPARE comes back to x1 and leaves what it is to leave; MALLOC and CALLOC do where there
/// is room. Where what is left of the heap is too little, or the product of CALLOC is no word, they stop at an EBREAK, with memory, the input and the output
/// as they were.
pub fn routines_work()
    ensures { RoutinesWork }
{}

/// The start leads to compiled code.
pub fn start_leads()
    ensures { StartLeads }
{}

/// EXIT ends the run with the low byte of a0.
pub fn exit_ends()
    ensures { ExitEnds }
{}
