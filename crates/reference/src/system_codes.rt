//! The texts of the system codes that a run can print.

pub const S804: &str = r"S804: GETMAIN EU, VU, LU: no place for the area

An unconditional request of form EU, VU or LU needs storage, and no place of
the requested length exists. These forms obtain only below 16 megabytes. The
task and its active subtasks end. The request changes nothing.

Usual causes:
  - Storage is obtained in a loop and never freed.
  - A task ended, but the subpool in which it obtained storage is shared: the
    storage stays.
  - The free storage is in pages that another subpool uses.

What to try:
  - Run with --explain: it prints the largest area that fits, and the number
    of free pages.
  - Use form EC, VC or LC, and check for return code 4.
  - Use form RU with LOC=ANY: it also searches above 16 megabytes.

Example:
    JOB REGION BELOW=1
    JOB GETMAIN EU,LV=4097,A=X

It prints:
    1 JOB REGION BELOW 1 ABOVE 0
    2 JOB ABEND S804
    STEP ENDED RC 8

Rules 10, 11 and 12 apply: see mvsjob --rule 10.
";

pub const S80A: &str = r"S80A: GETMAIN R: no place for the area

An unconditional request of form R needs storage, and no place of the
requested length exists. R obtains only below 16 megabytes. The task and its
active subtasks end. The request changes nothing.

Usual causes:
  - Storage is obtained in a loop and never freed.
  - The subpool is shared, and tasks that ended have left storage in it.
  - The requested length is not what you think: it is rounded up to a multiple
    of 8.

What to try:
  - Run with --explain: it prints the largest area that fits, and the number
    of free pages.
  - Use form RC, and check for return code 4.

Example:
    JOB REGION BELOW=1
    JOB GETMAIN R,LV=4000,A=X
    JOB GETMAIN R,LV=4000,A=Y

It prints:
    1 JOB REGION BELOW 1 ABOVE 0
    2 JOB RC 0
    3 JOB ABEND S80A
    STEP ENDED RC 8

Rules 10, 11 and 12 apply: see mvsjob --rule 10.
";

pub const S878: &str = r"S878: GETMAIN RU, VRU, STORAGE OBTAIN, CPOOL: no place for the area

An unconditional request needs storage, and no place of the requested length
exists in the regions that LOC allows. The task and its active subtasks end.
The request changes nothing. CPOOL BUILD, and a CPOOL GET that needs a further
part, report this code too.

Usual causes:
  - Storage is obtained in a loop and never freed.
  - The subpool is shared, and tasks that ended have left storage in it.
  - The free storage is in pieces, each shorter than the request.
  - A page has only a few bytes of one subpool: no other subpool can use it.

What to try:
  - Run with --explain: it prints the largest area that fits, and the number
    of free pages.
  - Use RC, VRC or COND=YES, and check for return code 4.
  - Use LOC=ANY: it also searches above 16 megabytes.

Example:
    JOB REGION BELOW=1
    JOB GETMAIN RU,LV=8,A=X,SP=1
    JOB GETMAIN RU,LV=8,A=Y,SP=2

It prints:
    1 JOB REGION BELOW 1 ABOVE 0
    2 JOB RC 0
    3 JOB ABEND S878
    STEP ENDED RC 8

Rules 4, 11, 12 and 61 apply: see mvsjob --rule 4.
";

pub const SB04: &str = r"SB04: GETMAIN EC, EU, VC, VU, LC, LU: invalid subpool number

The subpool number is not one that a program can use: 0 to 127, 131 or 132.
The request abends even if its form is conditional.

Usual causes:
  - The number is that of a subpool for authorized programs.
  - The number is in a register or a field that was not set.

What to try:
  - Use a number from 0 to 127.

Example:
    JOB REGION BELOW=1
    JOB GETMAIN EC,LV=8,A=X,SP=130

It prints:
    1 JOB REGION BELOW 1 ABOVE 0
    2 JOB ABEND SB04
    STEP ENDED RC 8

Rules 8 and 9 apply: see mvsjob --rule 8.
";

pub const SB05: &str = r"SB05: FREEMAIN EC, EU, LC, LU: invalid subpool number

The subpool number is not one that a program can use: 0 to 127, 131 or 132.
The release abends even if its form is conditional.

Usual causes:
  - FREEMAIN does not name the subpool that GETMAIN named.

What to try:
  - Compare SP= of the FREEMAIN with that of the GETMAIN.

Example:
    JOB REGION BELOW=1
    JOB GETMAIN EU,LV=8,A=X
    JOB FREEMAIN EU,LV=8,A=X,SP=200

It prints:
    1 JOB REGION BELOW 1 ABOVE 0
    2 JOB RC 0
    3 JOB ABEND SB05
    STEP ENDED RC 8

Rules 8 and 30 apply: see mvsjob --rule 8.
";

pub const SB0A: &str = r"SB0A: GETMAIN R, FREEMAIN R: invalid subpool number

The subpool number is not one that a program can use: 0 to 127, 131 or 132.

Usual causes:
  - The number is that of a subpool for authorized programs.
  - The number is in a register or a field that was not set.

What to try:
  - Use a number from 0 to 127.

Example:
    JOB REGION BELOW=1
    JOB GETMAIN R,LV=8,A=X,SP=128

It prints:
    1 JOB REGION BELOW 1 ABOVE 0
    2 JOB ABEND SB0A
    STEP ENDED RC 8

Rules 8, 9 and 30 apply: see mvsjob --rule 8.
";

pub const SB78: &str =
    r"SB78: GETMAIN and FREEMAIN RC, RU, VRC, VRU, STORAGE, CPOOL: invalid subpool
number

The subpool number is not one that a program can use: 0 to 127, 131 or 132.
The request abends even if it is conditional.

Usual causes:
  - The number is that of a subpool for authorized programs.
  - The number is in a register or a field that was not set.

What to try:
  - Use a number from 0 to 127.

Example:
    JOB REGION BELOW=1
    JOB STORAGE OBTAIN,LENGTH=8,ADDR=X,SP=255,COND=YES

It prints:
    1 JOB REGION BELOW 1 ABOVE 0
    2 JOB ABEND SB78
    STEP ENDED RC 8

Rules 8, 9 and 30 apply: see mvsjob --rule 8.
";

pub const S905: &str = r"S905: FREEMAIN EC, EU, LC, LU: the address is not on a doubleword

Storage is released from an address that is not a multiple of 8. The release
abends even if its form is conditional.

Usual causes:
  - The address was changed after the GETMAIN, for example by a loop over the
    area.
  - The address of a field in the area is released, not that of the area.

What to try:
  - Keep the address that GETMAIN returned, and release from it.

Example:
    JOB REGION BELOW=1
    JOB GETMAIN EU,LV=16,A=X
    JOB FREEMAIN EC,LV=8,A=X+4

It prints:
    1 JOB REGION BELOW 1 ABOVE 0
    2 JOB RC 0
    3 JOB ABEND S905
    STEP ENDED RC 8

Rule 29 applies: see mvsjob --rule 29.
";

pub const S90A: &str = r"S90A: FREEMAIN R: the address is not on a doubleword

Storage is released from an address that is not a multiple of 8.

Usual causes:
  - The address was changed after the GETMAIN, for example by a loop over the
    area.
  - The address of a field in the area is released, not that of the area.

What to try:
  - Keep the address that GETMAIN returned, and release from it.

Example:
    JOB REGION BELOW=1
    JOB GETMAIN R,LV=16,A=X
    JOB FREEMAIN R,LV=8,A=X+1

It prints:
    1 JOB REGION BELOW 1 ABOVE 0
    2 JOB RC 0
    3 JOB ABEND S90A
    STEP ENDED RC 8

Rule 29 applies: see mvsjob --rule 29.
";

pub const S978: &str = r"S978: FREEMAIN RC, RU, STORAGE RELEASE: the address is not on a doubleword

Storage is released from an address that is not a multiple of 8. The release
abends even if it is conditional.

Usual causes:
  - The address was changed after the request that obtained it, for example by
    a loop over the area.
  - The address of a field in the area is released, not that of the area.

What to try:
  - Keep the address that the request returned, and release from it.

Example:
    JOB REGION BELOW=1
    JOB STORAGE OBTAIN,LENGTH=16,ADDR=X
    JOB STORAGE RELEASE,LENGTH=8,ADDR=X+4,COND=YES

It prints:
    1 JOB REGION BELOW 1 ABOVE 0
    2 JOB RC 0
    3 JOB ABEND S978
    STEP ENDED RC 8

Rule 29 applies: see mvsjob --rule 29.
";

pub const SA05: &str = r"SA05: FREEMAIN EU, LU: the storage is not held

Part of the range is not storage of this subpool outside of cell pools.
Nothing is released.

Usual causes:
  - The area was released before.
  - The length is greater than that of the area.
  - The subpool number is not that of the GETMAIN.
  - A task that owned the subpool has ended.

What to try:
  - Run with --explain: it prints what holds the first address that is not
    held, and which line obtained it.
  - In a list, check that no two areas overlap.

Example:
    JOB REGION BELOW=1
    JOB GETMAIN EU,LV=16,A=X
    JOB FREEMAIN EU,LV=16,A=X
    JOB FREEMAIN EU,LV=16,A=X

It prints:
    1 JOB REGION BELOW 1 ABOVE 0
    2 JOB RC 0
    3 JOB RC 0
    4 JOB ABEND SA05
    STEP ENDED RC 8

Rules 26, 28 and 32 apply: see mvsjob --rule 26.
";

pub const SA0A: &str = r"SA0A: FREEMAIN R: the storage is not held

Part of the range is not storage of this subpool outside of cell pools.
Nothing is released.

Usual causes:
  - The area was released before.
  - The length is greater than that of the area.
  - The subpool number is not that of the GETMAIN.
  - A task that owned the subpool has ended.

What to try:
  - Run with --explain: it prints what holds the first address that is not
    held, and which line obtained it.

Example:
    JOB REGION BELOW=1
    JOB GETMAIN R,LV=16,A=X,SP=5
    JOB FREEMAIN R,LV=16,A=X

It prints:
    1 JOB REGION BELOW 1 ABOVE 0
    2 JOB RC 0
    3 JOB ABEND SA0A
    STEP ENDED RC 8

Rules 26 and 28 apply: see mvsjob --rule 26.
";

pub const SA78: &str = r"SA78: FREEMAIN RU, STORAGE RELEASE: the storage is not held

Part of the range is not storage of this subpool outside of cell pools.
Nothing is released.

Usual causes:
  - The area was released before.
  - The length is greater than that of the area.
  - The subpool number is not that of the request that obtained it.
  - The range contains a part of a cell pool.
  - A task that owned the subpool has ended.

What to try:
  - Run with --explain: it prints what holds the first address that is not
    held, and which line obtained it.

Example:
    JOB REGION BELOW=1
    JOB GETMAIN RU,LV=16,A=X
    JOB FREEMAIN RU,LV=24,A=X

It prints:
    1 JOB REGION BELOW 1 ABOVE 0
    2 JOB RC 0
    3 JOB ABEND SA78
    STEP ENDED RC 8

Rules 26 and 28 apply: see mvsjob --rule 26.
";

pub const S0C4: &str = r"S0C4: PUT, SHOW, MOVE: a byte cannot be accessed

At least one byte of the range is neither in an area that is held nor in an
allocated cell. No byte is read or written. MVS checks pages and not bytes, so
there the same access often succeeds.

Usual causes:
  - The range goes past the end of the area.
  - The area was released, or its subpool ended with the task that owned it.
  - The cell was freed.

What to try:
  - Run with --explain: it prints the first byte that cannot be accessed, and
    the area at that address.
  - Request LENGTH bytes: a length that is no multiple of 8 is rounded up, so
    the bytes up to the next doubleword can be accessed too.

Example:
    JOB REGION BELOW=1
    JOB GETMAIN R,LV=8,A=X
    JOB PUT X+4,X'0102030405'

It prints:
    1 JOB REGION BELOW 1 ABOVE 0
    2 JOB RC 0
    3 JOB ABEND S0C4
    STEP ENDED RC 8

Rules 38 and 40 apply: see mvsjob --rule 38.
";

pub const SA03: &str = r"SA03: RETURN: a subtask is active

A task returns while a task that it attached is still active. The task and its
active subtasks abend.

Usual causes:
  - The task does not wait for its subtasks.
  - A subtask has no RETURN on one of its paths.

What to try:
  - Let each subtask return before the task that attached it.

Example:
    JOB REGION BELOW=1
    JOB ATTACH TASK=SUB
    JOB RETURN

It prints:
    1 JOB REGION BELOW 1 ABOVE 0
    2 JOB ATTACHED
    3 JOB ABEND SA03
    3 SUB ENDED WITH JOB
    STEP ENDED RC 8

Rules 54 and 55 apply: see mvsjob --rule 54.
";
