//! The lengths of statements in bytes, as far as a branch to `*+8` or to `LABEL-4` needs them.

use crate::operations::{BranchKind, operation_of};
use assembler_statements::SourceStatement;

// Instructions and directives by their lengths.
const LENGTHS: &[(usize, &[&str])] = &[
    (
        0,
        &["EQU", "USING", "DROP", "PRINT", "EJECT", "SPACE", "TITLE"],
    ),
    (
        2,
        &[
            "AR", "ALR", "BALR", "BASR", "BCR", "BCTR", "CLR", "CLCL", "CR", "DR", "LCR", "LNR",
            "LPR", "LR", "LTR", "MR", "MVCL", "NOPR", "NR", "OR", "SLR", "SR", "SVC", "XR",
        ],
    ),
    (
        4,
        &[
            "A", "AH", "AHI", "AL", "BAL", "BAS", "BC", "BRAS", "BRC", "C", "CH", "CHI", "CL",
            "CLI", "CLM", "CVB", "CVD", "D", "EX", "IC", "ICM", "JAS", "JC", "L", "LA", "LH",
            "LHI", "LM", "M", "MH", "MHI", "MVI", "N", "NI", "NOP", "O", "OI", "S", "SH", "SL",
            "SLA", "SLDA", "SLDL", "SLL", "SRA", "SRDA", "SRDL", "SRL", "ST", "STC", "STCM", "STH",
            "STM", "TM", "X", "XI",
        ],
    ),
    (
        6,
        &[
            "AP", "BRASL", "BRCL", "CLC", "CP", "DP", "ED", "EDMK", "JASL", "JLC", "LARL", "MP",
            "MVC", "MVN", "MVO", "MVZ", "NC", "OC", "PACK", "SP", "SRP", "TR", "TRT", "UNPK", "XC",
            "ZAP",
        ],
    ),
];

// Returns the length of a branch to a place: those that compare, and the relative ones that reach far, are longer than the others.
fn length_of_branch(operation: &str) -> usize {
    let is_far = operation.starts_with("JL") && operation.len() > 2;
    let is_long = ["BCTG", "BXHG", "BXLEG", "BRUL"].contains(&operation);
    if is_far || is_long || operation.starts_with("C") {
        6
    } else {
        4
    }
}

/// Returns the length of a statement, if it is known.
pub fn length_of(statement: &SourceStatement) -> Option<usize> {
    let operation = statement.operation.as_str();
    if operation == "DS" && statement.field.as_str() == "0H" {
        return Some(0);
    }
    for (length, operations) in LENGTHS {
        if operations.contains(&operation) {
            return Some(*length);
        }
    }
    match operation_of(operation) {
        BranchKind::Branch { .. } => Some(length_of_branch(operation)),
        BranchKind::BranchRegister { .. } => Some(2),
        BranchKind::Masked
        | BranchKind::MaskedRegister
        | BranchKind::Call
        | BranchKind::CallRegister
        | BranchKind::CallMacro
        | BranchKind::Return
        | BranchKind::Abend
        | BranchKind::Svc
        | BranchKind::Other => None,
    }
}
