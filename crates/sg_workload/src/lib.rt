//! A workload: a script of three transactions on an array, a table and a blob, which is drawn from a seed, so that the same seed and
//! count give the same script on every machine.
//!
//! It stands on `sg_base`, `sg_text` and on `rand_pcg`, whose generator PCG XSH RR 64/32 it draws from. It promises that the bytes
//! which the sink took are those of the lines that `specs/Lines.antt` defines, or a front of them where the sink failed.
#![tactic(auto)]

mod drawn;
mod draws;
mod line;
mod workload;

pub use workload::{Gen, write_workload};
