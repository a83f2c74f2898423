// The C functions of the bench, as functions of Rattle, on numbers and byte slices: each reads its bytes, asks or runs the job, and writes the answer. Crate bench_export exports them to C.
#![tactic(auto)]

pub mod cutting;
pub mod fans;
pub mod leaves;
pub mod listed;
pub mod meshes;
pub mod sheets;
pub mod tearing;
