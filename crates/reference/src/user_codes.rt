//! The texts of the user codes of this machine.

pub const U4001: &str = r"U4001: CPOOL FREE: no allocated cell of the pool at the address

The address is not that of an allocated cell of this pool.

Usual causes:
  - The cell was freed before.
  - The address is inside of a cell, not at its beginning.
  - The cell belongs to another pool.

What to try:
  - Free the address that CPOOL GET returned, once.

Example:
    JOB REGION BELOW=1
    JOB CPOOL BUILD,CPID=P,CSIZE=16,PCELLCT=2
    JOB CPOOL GET,CPID=P,CELL=C
    JOB CPOOL FREE,CPID=P,CELL=C
    JOB CPOOL FREE,CPID=P,CELL=C

It prints:
    1 JOB REGION BELOW 1 ABOVE 0
    2 JOB RC 0
    3 JOB CELL
    4 JOB RC 0
    5 JOB ABEND U4001
    STEP ENDED RC 8

Rule 63 applies: see mvsjob --rule 63.
";

pub const U4002: &str = r"U4002: CPOOL GET, FREE, DELETE: no such pool

No cell pool of this name exists.

Usual causes:
  - The pool was deleted, or its subpool was freed with its owner.
  - CPOOL BUILD was refused.

What to try:
  - Run with --explain: it prints when a pool ends with its subpool.

Example:
    JOB REGION BELOW=1
    JOB CPOOL GET,CPID=P,CELL=C

It prints:
    1 JOB REGION BELOW 1 ABOVE 0
    2 JOB ABEND U4002
    STEP ENDED RC 8

Rules 63 and 66 apply: see mvsjob --rule 63.
";

pub const U4003: &str = r"U4003: ATTACH: the task only shares the subpool that it gives

GSPV or GSPL names a subpool that another task owns.

Usual causes:
  - The subpool was shared with this task by SHSPV, SHSPL or SZERO=YES.

What to try:
  - Share the subpool: SHSPV or SHSPL.

Example:
    JOB REGION BELOW=1
    JOB ATTACH TASK=A,SHSPV=5
    A ATTACH TASK=B,GSPV=5

It prints:
    1 JOB REGION BELOW 1 ABOVE 0
    2 JOB ATTACHED
    3 A ABEND U4003
    STEP ENDED RC 8

Rule 48 applies: see mvsjob --rule 48.
";

pub const U4005: &str = r"U4005: ATTACH: 32 tasks are active

A step can have at most 32 active tasks, with the job step task.

Usual causes:
  - Subtasks are attached in a loop, and none of them returns.

What to try:
  - Let subtasks return before more are attached.

Rule 51 applies: see mvsjob --rule 51.
";

pub const U4006: &str = r"U4006: FREEMAIN, STORAGE RELEASE: subpool 0 cannot be released as a whole

A release without an area names subpool 0. On MVS the codes are 40A and 478.

Usual causes:
  - SP= is missing, so the number is 0.
  - The length is 0, which releases the whole subpool.

What to try:
  - Name the subpool, or the area and its length.

Example:
    JOB REGION BELOW=1
    JOB GETMAIN R,LV=8,A=X
    JOB FREEMAIN RU,SP=0

It prints:
    1 JOB REGION BELOW 1 ABOVE 0
    2 JOB RC 0
    3 JOB ABEND U4006
    STEP ENDED RC 8

Rules 33 and 35 apply: see mvsjob --rule 33.
";

pub const U4007: &str = r"U4007: CPOOL BUILD: 64 pools exist

A step can have at most 64 cell pools.

Usual causes:
  - Pools are built in a loop, and none is deleted.

What to try:
  - Delete pools that are no longer used.

Rule 68 applies: see mvsjob --rule 68.
";

pub const U4008: &str = r"U4008: CPOOL BUILD: a pool of this name exists

The names of cell pools differ, whichever tasks built them.

Usual causes:
  - Two tasks build a pool under the same name.
  - The pool was not deleted before it is built again.

What to try:
  - Use another name, or CPOOL DELETE first.

Example:
    JOB REGION BELOW=1
    JOB CPOOL BUILD,CPID=P,CSIZE=16,PCELLCT=1
    JOB CPOOL BUILD,CPID=P,CSIZE=16,PCELLCT=1

It prints:
    1 JOB REGION BELOW 1 ABOVE 0
    2 JOB RC 0
    3 JOB ABEND U4008
    STEP ENDED RC 8

Rule 68 applies: see mvsjob --rule 68.
";

pub const U4009: &str = r"U4009: ATTACH: a task of this name is active

The names of active tasks differ. The name of a task that has ended can be
used again.

Usual causes:
  - An ATTACH runs twice, and the first subtask has not ended.

What to try:
  - Use another name, or let the first subtask return.

Example:
    JOB REGION BELOW=1
    JOB ATTACH TASK=A
    JOB ATTACH TASK=A

It prints:
    1 JOB REGION BELOW 1 ABOVE 0
    2 JOB ATTACHED
    3 JOB ABEND U4009
    3 A ENDED WITH JOB
    STEP ENDED RC 8

Rule 51 applies: see mvsjob --rule 51.
";
