// Traces made from a head and its operations.
use std::alloc::{AllocError, Global};

// A head: the count of its settings, the divisor, the model and the count of operations.
#[derive(Clone, Copy)]
pub(crate) struct Head(
    pub(crate) u32,
    pub(crate) u32,
    pub(crate) u32,
    pub(crate) u32,
);

// So many operations, and divisor 12 on the 8253.
pub(crate) fn sound(operations: u32) -> Head {
    Head(2, 12, 0, operations)
}

// Code, target and number.
#[derive(Clone, Copy)]
pub(crate) struct Operation(pub(crate) u8, pub(crate) u8, pub(crate) u32);

pub(crate) fn begin(alloc: Global, head: Head) -> Result<Vec<u8>, AllocError> {
    let mut trace = Vec::new(alloc);
    let Head(count, divisor, model, operations) = head;
    for number in [count, divisor, model, operations] {
        trace.extend_from_slice(&number.to_le_bytes())?;
    }
    Ok(trace)
}

pub(crate) fn push(trace: &mut Vec<u8>, operation: Operation) -> Result<(), AllocError> {
    let Operation(code, target, number) = operation;
    trace.extend_from_slice(&[code, target])?;
    trace.extend_from_slice(&number.to_le_bytes())
}
