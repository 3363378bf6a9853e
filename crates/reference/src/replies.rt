//! The texts of the replies that are neither abends nor plain successes.

pub const RC_4: &str = r"RC 4: A conditional request is refused

A conditional obtain finds no place for the area, or a conditional release
names storage that the subpool does not hold. The request changes nothing, and
sets no name. The task continues.

Usual causes:
  - Obtain: no place of the least length exists.
  - Release: the area was released before, the length is too great, or the
    subpool is another one.

What to try:
  - Run with --explain: it prints why.
  - A program must check register 15 after each conditional request.

Example:
    JOB REGION BELOW=1
    JOB GETMAIN RC,LV=4097,A=X
    JOB FREEMAIN RC,LV=8,A=X

It prints:
    1 JOB REGION BELOW 1 ABOVE 0
    2 JOB RC 4
    3 JOB NO NAME
    STEP ENDED RC 0

Rules 10, 12, 26 and 28 apply: see mvsjob --rule 10.
";

pub const NO_CELL: &str = r"NO CELL: CPOOL GET,COND: no cell is free

All cells of the pool are allocated, and a conditional request obtains no
further part. The task continues.

Usual causes:
  - Cells are not freed.
  - PCELLCT is smaller than the number of cells that are used at one time.

What to try:
  - Use UNCOND, the default here: it obtains a further part of SCELLCT cells.

Example:
    JOB REGION BELOW=1
    JOB CPOOL BUILD,CPID=P,CSIZE=16,PCELLCT=1
    JOB CPOOL GET,COND,CPID=P,CELL=A
    JOB CPOOL GET,COND,CPID=P,CELL=B

It prints:
    1 JOB REGION BELOW 1 ABOVE 0
    2 JOB RC 0
    3 JOB CELL
    4 JOB NO CELL
    STEP ENDED RC 0

Rule 60 applies: see mvsjob --rule 60.
";

pub const NOT_RUN: &str = r"NOT RUN: The task is not active

The statement was not executed: its task has ended, or was never attached.
Nothing changes.

Usual causes:
  - An earlier line abended, and the task ended with it.
  - The name of the task is misspelled.

What to try:
  - Run with --strict: it reports each such line, with a hint.

Example:
    JOB REGION BELOW=1
    SUB GETMAIN R,LV=8,A=X

It prints:
    1 JOB REGION BELOW 1 ABOVE 0
    2 SUB NOT RUN
    STEP ENDED RC 0

Rule 73 applies: see mvsjob --rule 73.
";

pub const NO_NAME: &str = r"NO NAME: A name is not set

The statement was not executed: it uses a name that no granted request of this
step has set. Nothing changes.

Usual causes:
  - The request that sets the name was refused, or was not executed.
  - The name is misspelled, or was set in an earlier step.

What to try:
  - Run with --strict: it reports each such line, with a hint.

Example:
    JOB REGION BELOW=1
    JOB GETMAIN RC,LV=4097,A=X
    JOB SHOW X,4

It prints:
    1 JOB REGION BELOW 1 ABOVE 0
    2 JOB RC 4
    3 JOB NO NAME
    STEP ENDED RC 0

Rule 74 applies: see mvsjob --rule 74.
";
