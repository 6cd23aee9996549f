//! Runs of three-address code are runs of the machine on the code that `rv_code` makes of it.
//!
//! Definitions and laws alone. `specs/Maps.antt` says where blocks stand in memory and which numbers stand for values, `Relation.antt` when the machine stands
//! where a run stands (`Ready`), `Fitting.antt` what code must be, and `Claims.antt` what is claimed where a run ends. Proofs go backwards: for each kind of
//! step, a law `KIND_works` takes the claim wherever the machine stands as the rest of the run does (`Follows`), and gives the claim on the step.
//!
//! Every kind of step is proved: steps on values (`proofs/Plain.antt`, `Calculating.antt`, `Comparing.antt`, `Pointing.antt`, `Parts.antt`, `Fields.antt`),
//! where code goes on (`Jumping.antt`), loads and stores of all widths with what is told of them (`Loading.antt`, `Storing.antt`), records that are copied
//! (`Copying.antt`), and blocks of locals: they begin, end, hold nothing again, zeros or a text (`Beginning.antt`, `Ending.antt`, `Filling.antt`,
//! `Texting.antt`). So are calls (`Calls.antt`): the frame that the callee makes (`Entering.antt`) and the parameters that it takes from the row
//! (`Receiving.antt`); and returns (`Returning.antt`), in which the blocks of the function's locals end (`Leaving.antt`), also of what a temporary holds
//! (`Exiting.antt`).
//!
//! Allocations are proved where what they take is within the heap (`Allocating.antt`, `Requesting.antt`), and so are, of the library, `malloc` and `calloc`
//! (`Mallocs.antt`). `free` (`Freeing.antt`), `memcpy` and `memmove` (`Ranging.antt`), `memset` (`Setting.antt`) and `memcmp` (`Differing.antt`) call the
//! runtime's routines; `putchar` (`Writing.antt`) and `getchar` (`Reading.antt`) call the environment, with a byte of the runtime's own data (`Passing.antt`),
//! and `exit` ends the run (`Exiting.antt`).
//!
//! `Runs.antt` joins the steps: what three-address code comes to in some steps, the machine comes to, where calls and allocations have room.
//!
//! Missing are that what is claimed may be proved where there is room (`CallsHaveRoom`, `AllocationsHaveRoom`), and that an image is such a program (`IsBuilt`,
//! and `Ready` where its run begins), which another crate shows.
#![tactic(auto)]
