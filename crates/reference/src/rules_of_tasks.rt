//! The texts of the rules of access, tasks, cell pools, steps and statements: 38 to 74.

pub const RULE_38: &str =
    r"Rule 38: A byte can be read and written if it is held outside cell pools, or
is in an allocated cell. Otherwise 0C4.

Source: This project's choice, by byte: MVS protects by page. z/OS MVS System
Codes, 0C4.

Example:
    JOB REGION BELOW=1
    JOB GETMAIN R,LV=8,A=X
    JOB SHOW X,8
    JOB SHOW X,9

It prints:
    1 JOB REGION BELOW 1 ABOVE 0
    2 JOB RC 0
    3 JOB DATA +0000 0000000000000000
    4 JOB ABEND S0C4
    STEP ENDED RC 8
";

pub const RULE_39: &str =
    r"Rule 39: Every task of the step can read and write the storage of every task.

Source: z/OS MVS Programming: Assembler Services Guide, subtasks share the
address space (section not verified).

Example:
    JOB REGION BELOW=1
    JOB GETMAIN R,LV=8,A=X
    JOB ATTACH TASK=A,SZERO=NO
    A PUT X,X'C1'
    JOB SHOW X,8

It prints:
    1 JOB REGION BELOW 1 ABOVE 0
    2 JOB RC 0
    3 JOB ATTACHED
    4 A OK
    5 JOB DATA +0000 C100000000000000
    STEP ENDED RC 0
";

pub const RULE_40: &str =
    r"Rule 40: If a single byte cannot be accessed, the whole request is refused,
and no byte is changed.

Source: This project's choice.

Example:
    JOB REGION BELOW=1
    JOB GETMAIN R,LV=8,A=X
    JOB ATTACH TASK=A
    A PUT X+7,X'C1C2'
    JOB SHOW X,8

It prints:
    1 JOB REGION BELOW 1 ABOVE 0
    2 JOB RC 0
    3 JOB ATTACHED
    4 A ABEND S0C4
    5 JOB DATA +0000 0000000000000000
    STEP ENDED RC 8
";

pub const RULE_41: &str =
    r"Rule 41: MOVE stores what the source held before the request, even if the
ranges overlap.

Source: This project's choice.

Example:
    JOB REGION BELOW=1
    JOB GETMAIN R,LV=8,A=X
    JOB PUT X,X'0102030405'
    JOB MOVE X+1,X,4
    JOB SHOW X,8

It prints:
    1 JOB REGION BELOW 1 ABOVE 0
    2 JOB RC 0
    3 JOB OK
    4 JOB OK
    5 JOB DATA +0000 0101020304000000
    STEP ENDED RC 0
";

pub const RULE_42: &str =
    r"Rule 42: A task that obtains with a number that it does not have, or shares
such a number with a subtask, gets a new subpool, which it owns. A refused
request creates none.

Source: z/OS MVS Programming: Assembler Services Guide, subpool ownership
(section not verified).

Example:
    JOB REGION BELOW=1
    JOB GETMAIN R,LV=8,A=X,SP=5
    JOB GETMAIN RC,LV=4096,A=Y,SP=6
    JOB REPORT SP

It prints:
    1 JOB REGION BELOW 1 ABOVE 0
    2 JOB RC 0
    3 JOB RC 4
    4 JOB SP 5 OWNED PLAIN 8 POOL 0
    STEP ENDED RC 0
";

pub const RULE_43: &str =
    r"Rule 43: GSPV and GSPL give subpools: the subtask becomes the owner, and the
attaching task (MVS: the mother task) no longer has the numbers.

Source: z/OS MVS Programming: Assembler Services Reference, ATTACH, GSPV.

Example:
    JOB REGION BELOW=1
    JOB GETMAIN R,LV=8,A=X,SP=5
    JOB ATTACH TASK=A,GSPV=5
    A REPORT SP
    JOB REPORT SP

It prints:
    1 JOB REGION BELOW 1 ABOVE 0
    2 JOB RC 0
    3 JOB ATTACHED
    4 A SP 0 SHARED PLAIN 0 POOL 0
    4 A SP 5 OWNED PLAIN 8 POOL 0
    5 JOB SP 0 OWNED PLAIN 0 POOL 0
    STEP ENDED RC 0
";

pub const RULE_44: &str =
    r"Rule 44: SHSPV and SHSPL share subpools: both tasks have them, and the owner
does not change.

Source: z/OS MVS Programming: Assembler Services Reference, ATTACH, SHSPV.

Example:
    JOB REGION BELOW=1
    JOB GETMAIN R,LV=8,A=X,SP=5
    JOB ATTACH TASK=A,SHSPV=5
    A REPORT SP
    JOB REPORT SP

It prints:
    1 JOB REGION BELOW 1 ABOVE 0
    2 JOB RC 0
    3 JOB ATTACHED
    4 A SP 0 SHARED PLAIN 0 POOL 0
    4 A SP 5 SHARED PLAIN 8 POOL 0
    5 JOB SP 0 OWNED PLAIN 0 POOL 0
    5 JOB SP 5 OWNED PLAIN 8 POOL 0
    STEP ENDED RC 0
";

pub const RULE_45: &str = r"Rule 45: SZERO=YES, the default, shares subpool 0. SZERO=NO does not.

Source: z/OS MVS Programming: Assembler Services Reference, ATTACH, SZERO.

Example:
    JOB REGION BELOW=1
    JOB ATTACH TASK=A
    JOB ATTACH TASK=B,SZERO=NO
    A REPORT SP
    B REPORT SP

It prints:
    1 JOB REGION BELOW 1 ABOVE 0
    2 JOB ATTACHED
    3 JOB ATTACHED
    4 A SP 0 SHARED PLAIN 0 POOL 0
    5 B SP NONE
    STEP ENDED RC 0
";

pub const RULE_46: &str =
    r"Rule 46: If the attaching task does not have a number that it shares, the
subpool is created for it, empty.

Source: z/OS MVS Programming: Assembler Services Guide, creating subpools, as
far as known (docs/DIFFERENCES.md).

Example:
    JOB REGION BELOW=1
    JOB ATTACH TASK=A,SHSPV=5
    JOB REPORT SP

It prints:
    1 JOB REGION BELOW 1 ABOVE 0
    2 JOB ATTACHED
    3 JOB SP 0 OWNED PLAIN 0 POOL 0
    3 JOB SP 5 OWNED PLAIN 0 POOL 0
    STEP ENDED RC 0
";

pub const RULE_47: &str =
    r"Rule 47: If the attaching task does not have a number that it gives, nothing
happens.

Source: This project's choice; MVS likely makes it for the subtask
(docs/DIFFERENCES.md).

Example:
    JOB REGION BELOW=1
    JOB ATTACH TASK=A,GSPV=5
    A REPORT SP

It prints:
    1 JOB REGION BELOW 1 ABOVE 0
    2 JOB ATTACHED
    3 A SP 0 SHARED PLAIN 0 POOL 0
    STEP ENDED RC 0
";

pub const RULE_48: &str = r"Rule 48: A subpool that the task only shares cannot be given: U4003.

Source: This project's choice; MVS likely has a code of ATTACH
(docs/DIFFERENCES.md).

Example:
    JOB REGION BELOW=1
    JOB ATTACH TASK=A,SHSPV=5
    A ATTACH TASK=B,GSPV=5

It prints:
    1 JOB REGION BELOW 1 ABOVE 0
    2 JOB ATTACHED
    3 A ABEND U4003
    STEP ENDED RC 8
";

pub const RULE_49: &str =
    r"Rule 49: Tasks that share a given subpool continue to share it, with the new
owner.

Source: This project's choice.

Example:
    JOB REGION BELOW=1
    JOB ATTACH TASK=A,SHSPV=5
    JOB ATTACH TASK=B,GSPV=5
    B GETMAIN R,LV=8,A=X,SP=5
    A REPORT SP

It prints:
    1 JOB REGION BELOW 1 ABOVE 0
    2 JOB ATTACHED
    3 JOB ATTACHED
    4 B RC 0
    5 A SP 0 SHARED PLAIN 0 POOL 0
    5 A SP 5 SHARED PLAIN 8 POOL 0
    STEP ENDED RC 0
";

pub const RULE_50: &str =
    r"Rule 50: After giving a number away, the next obtain of the attaching task
with that number creates a new subpool.

Source: This project's choice.

Example:
    JOB REGION BELOW=2
    JOB GETMAIN R,LV=8,A=X,SP=5
    JOB ATTACH TASK=A,GSPV=5
    JOB GETMAIN R,LV=8,A=Y,SP=5
    JOB FREEMAIN RC,LV=8,A=X,SP=5

It prints:
    1 JOB REGION BELOW 2 ABOVE 0
    2 JOB RC 0
    3 JOB ATTACHED
    4 JOB RC 0
    5 JOB RC 4
    STEP ENDED RC 0
";

pub const RULE_51: &str =
    r"Rule 51: At most 32 tasks are active (U4005), and their names differ (U4009).
The name of an ended task can be used again.

Source: This project's choice.

Example:
    JOB REGION BELOW=1
    JOB ATTACH TASK=A
    A RETURN
    JOB ATTACH TASK=A
    JOB ATTACH TASK=A

It prints:
    1 JOB REGION BELOW 1 ABOVE 0
    2 JOB ATTACHED
    3 A ENDED
    4 JOB ATTACHED
    5 JOB ABEND U4009
    5 A ENDED WITH JOB
    STEP ENDED RC 8
";

pub const RULE_52: &str =
    r"Rule 52: When a task ends, each subpool that it owns is freed: its storage and
its pools. No task has it any more.

Source: z/OS MVS Programming: Assembler Services Guide, task termination
(section not verified).

Example:
    JOB REGION BELOW=1
    JOB ATTACH TASK=A
    A GETMAIN R,LV=8,A=X,SP=5
    A RETURN
    JOB REPORT MAP

It prints:
    1 JOB REGION BELOW 1 ABOVE 0
    2 JOB ATTACHED
    3 A RC 0
    4 A ENDED
    5 JOB MAP 00006000 00001000 FREE
    STEP ENDED RC 0
";

pub const RULE_53: &str =
    r"Rule 53: When a task ends that only shares a subpool, nothing of the subpool
is freed.

Source: z/OS MVS Programming: Assembler Services Guide, task termination
(section not verified).

Example:
    JOB REGION BELOW=1
    JOB ATTACH TASK=A,SHSPV=5
    A GETMAIN R,LV=8,A=X,SP=5
    A RETURN
    JOB REPORT SP

It prints:
    1 JOB REGION BELOW 1 ABOVE 0
    2 JOB ATTACHED
    3 A RC 0
    4 A ENDED
    5 JOB SP 0 OWNED PLAIN 0 POOL 0
    5 JOB SP 5 OWNED PLAIN 8 POOL 0
    STEP ENDED RC 0
";

pub const RULE_54: &str = r"Rule 54: RETURN with active subtasks abends with A03.

Source: z/OS MVS System Codes, A03.

Example:
    JOB REGION BELOW=1
    JOB ATTACH TASK=A
    JOB RETURN

It prints:
    1 JOB REGION BELOW 1 ABOVE 0
    2 JOB ATTACHED
    3 JOB ABEND SA03
    3 A ENDED WITH JOB
    STEP ENDED RC 8
";

pub const RULE_55: &str = r"Rule 55: An abend ends the task and all its active descendants. They are
printed sorted by name.

Source: z/OS MVS Programming: Assembler Services Guide, task termination
(section not verified); the order: this project's choice.

Example:
    JOB REGION BELOW=1
    JOB ATTACH TASK=B
    B ATTACH TASK=A
    JOB ABEND 1

It prints:
    1 JOB REGION BELOW 1 ABOVE 0
    2 JOB ATTACHED
    3 B ATTACHED
    4 JOB ABEND U0001
    4 A ENDED WITH JOB
    4 B ENDED WITH JOB
    STEP ENDED RC 8
";

pub const RULE_56: &str = r"Rule 56: An abend happens before the request changes anything.

Source: This project's choice.

Example:
    JOB REGION BELOW=1
    JOB ATTACH TASK=A
    A GETMAIN LU,LA=(8,4096),A=(X,Y)
    JOB REPORT SP

It prints:
    1 JOB REGION BELOW 1 ABOVE 0
    2 JOB ATTACHED
    3 A ABEND S804
    4 JOB SP 0 OWNED PLAIN 0 POOL 0
    STEP ENDED RC 8
";

pub const RULE_57: &str =
    r"Rule 57: BUILD obtains a first part of PCELLCT cells. Each further part has
SCELLCT cells.

Source: z/OS MVS Programming: Assembler Services Reference, CPOOL BUILD.

Example:
    JOB REGION BELOW=1
    JOB CPOOL BUILD,CPID=P,CSIZE=8,PCELLCT=1,SCELLCT=2
    JOB REPORT SP
    JOB CPOOL GET,CPID=P,CELL=A
    JOB CPOOL GET,CPID=P,CELL=B
    JOB REPORT SP

It prints:
    1 JOB REGION BELOW 1 ABOVE 0
    2 JOB RC 0
    3 JOB SP 0 OWNED PLAIN 0 POOL 32
    4 JOB CELL
    5 JOB CELL
    6 JOB SP 0 OWNED PLAIN 0 POOL 72
    STEP ENDED RC 0
";

pub const RULE_58: &str =
    r"Rule 58: Cells begin on doublewords if CSIZE is a multiple of 8, and on words
if it is a multiple of 4.

Source: z/OS MVS Programming: Assembler Services Reference, CPOOL BUILD,
CSIZE.

Example:
    JOB REGION BELOW=1
    JOB CPOOL BUILD,CPID=P,CSIZE=12,PCELLCT=2
    JOB CPOOL GET,CPID=P,CELL=A
    JOB CPOOL GET,CPID=P,CELL=B
    JOB WHERE A
    JOB WHERE B

It prints:
    1 JOB REGION BELOW 1 ABOVE 0
    2 JOB RC 0
    3 JOB CELL
    4 JOB CELL
    5 JOB AT 00006018
    6 JOB AT 00006024
    STEP ENDED RC 0
";

pub const RULE_59: &str =
    r"Rule 59: A part has 16 bytes, one bit for each cell in whole doublewords, and
the cells.

Source: This project's choice.

Example:
    JOB REGION BELOW=1
    JOB CPOOL BUILD,CPID=P,CSIZE=8,PCELLCT=1
    JOB REPORT SP

It prints:
    1 JOB REGION BELOW 1 ABOVE 0
    2 JOB RC 0
    3 JOB SP 0 OWNED PLAIN 0 POOL 32
    STEP ENDED RC 0
";

pub const RULE_60: &str =
    r"Rule 60: GET allocates a free cell. If none is free, it returns no cell with
COND, and obtains a further part with UNCOND, the default here.

Source: z/OS MVS Programming: Assembler Services Reference, CPOOL GET; the
default: this project's choice.

Example:
    JOB REGION BELOW=1
    JOB CPOOL BUILD,CPID=P,CSIZE=8,PCELLCT=1
    JOB CPOOL GET,COND,CPID=P,CELL=A
    JOB CPOOL GET,COND,CPID=P,CELL=B
    JOB CPOOL GET,UNCOND,CPID=P,CELL=B

It prints:
    1 JOB REGION BELOW 1 ABOVE 0
    2 JOB RC 0
    3 JOB CELL
    4 JOB NO CELL
    5 JOB CELL
    STEP ENDED RC 0
";

pub const RULE_61: &str = r"Rule 61: A shortage in BUILD or GET is 878.

Source: This project's choice.

Example:
    JOB REGION BELOW=1
    JOB CPOOL BUILD,CPID=P,CSIZE=4096,PCELLCT=1

It prints:
    1 JOB REGION BELOW 1 ABOVE 0
    2 JOB ABEND S878
    STEP ENDED RC 8
";

pub const RULE_62: &str =
    r"Rule 62: A further part comes from the subpool of the pool, in the region that
was selected at BUILD, whichever task makes the request.

Source: This project's choice.

Example:
    JOB REGION BELOW=1
    JOB CPOOL BUILD,CPID=P,CSIZE=8,PCELLCT=1
    JOB ATTACH TASK=A,SZERO=NO
    A CPOOL GET,CPID=P,CELL=C
    A CPOOL GET,CPID=P,CELL=D
    JOB REPORT SP

It prints:
    1 JOB REGION BELOW 1 ABOVE 0
    2 JOB RC 0
    3 JOB ATTACHED
    4 A CELL
    5 A CELL
    6 JOB SP 0 OWNED PLAIN 0 POOL 64
    STEP ENDED RC 0
";

pub const RULE_63: &str =
    r"Rule 63: FREE needs the address of an allocated cell of the pool, or it abends
with U4001. An unknown pool is U4002.

Source: This project's choice; MVS does not notice a cell that is freed twice,
and the chain breaks later.

Example:
    JOB REGION BELOW=1
    JOB CPOOL BUILD,CPID=P,CSIZE=8,PCELLCT=1
    JOB CPOOL GET,CPID=P,CELL=C
    JOB CPOOL FREE,CPID=P,CELL=C
    JOB CPOOL FREE,CPID=P,CELL=C

It prints:
    1 JOB REGION BELOW 1 ABOVE 0
    2 JOB RC 0
    3 JOB CELL
    4 JOB RC 0
    5 JOB ABEND U4001
    STEP ENDED RC 8
";

pub const RULE_64: &str = r"Rule 64: A cell that is allocated again is filled with the fill byte.

Source: This project's choice.

Example:
    JOB REGION BELOW=1
    JOB CPOOL BUILD,CPID=P,CSIZE=8,PCELLCT=1
    JOB CPOOL GET,CPID=P,CELL=C
    JOB PUT C,X'FFFF'
    JOB CPOOL FREE,CPID=P,CELL=C
    JOB CPOOL GET,CPID=P,CELL=D
    JOB SHOW D,8

It prints:
    1 JOB REGION BELOW 1 ABOVE 0
    2 JOB RC 0
    3 JOB CELL
    4 JOB OK
    5 JOB RC 0
    6 JOB CELL
    7 JOB DATA +0000 0000000000000000
    STEP ENDED RC 0
";

pub const RULE_65: &str =
    r"Rule 65: The bytes of a free cell, and the bytes before the cells, cannot be
read.

Source: This project's choice.

Example:
    JOB REGION BELOW=1
    JOB CPOOL BUILD,CPID=P,CSIZE=8,PCELLCT=2
    JOB CPOOL GET,CPID=P,CELL=C
    JOB SHOW C,8
    JOB SHOW C,9

It prints:
    1 JOB REGION BELOW 1 ABOVE 0
    2 JOB RC 0
    3 JOB CELL
    4 JOB DATA +0000 0000000000000000
    5 JOB ABEND S0C4
    STEP ENDED RC 8
";

pub const RULE_66: &str =
    r"Rule 66: FREEMAIN of an area never frees storage of a pool. Releasing the
whole subpool, and the end of its owner, delete the pool.

Source: This project's choice.

Example:
    JOB REGION BELOW=1
    JOB CPOOL BUILD,CPID=P,CSIZE=8,PCELLCT=1,SP=5
    JOB FREEMAIN RC,LV=8,A=X'6000',SP=5
    JOB FREEMAIN RU,SP=5
    JOB CPOOL GET,CPID=P,CELL=C

It prints:
    1 JOB REGION BELOW 1 ABOVE 0
    2 JOB RC 0
    3 JOB RC 4
    4 JOB RC 0
    5 JOB ABEND U4002
    STEP ENDED RC 8
";

pub const RULE_67: &str = r"Rule 67: DELETE frees all parts of the pool.

Source: z/OS MVS Programming: Assembler Services Reference, CPOOL DELETE.

Example:
    JOB REGION BELOW=1
    JOB CPOOL BUILD,CPID=P,CSIZE=8,PCELLCT=1
    JOB CPOOL DELETE,CPID=P
    JOB REPORT MAP

It prints:
    1 JOB REGION BELOW 1 ABOVE 0
    2 JOB RC 0
    3 JOB RC 0
    4 JOB MAP 00006000 00001000 FREE
    STEP ENDED RC 0
";

pub const RULE_68: &str =
    r"Rule 68: There are at most 64 pools (U4007), their names differ (U4008), and
all tasks can use them.

Source: This project's choice.

Example:
    JOB REGION BELOW=1
    JOB ATTACH TASK=A
    A CPOOL BUILD,CPID=P,CSIZE=8,PCELLCT=1
    JOB CPOOL GET,CPID=P,CELL=C
    JOB CPOOL BUILD,CPID=P,CSIZE=8,PCELLCT=1

It prints:
    1 JOB REGION BELOW 1 ABOVE 0
    2 JOB ATTACHED
    3 A RC 0
    4 JOB CELL
    5 JOB ABEND U4008
    5 A ENDED WITH JOB
    STEP ENDED RC 8
";

pub const RULE_69: &str =
    r"Rule 69: 131 and 132 are subpools of the job step task. Every task that names
them obtains from and releases to the subpool of the job step task, also as a
whole.

Source: Table of subpools in the Authorized Assembler Services Guide, as far
as known (docs/DIFFERENCES.md).

Example:
    JOB REGION BELOW=1
    JOB ATTACH TASK=A
    A GETMAIN R,LV=8,A=X,SP=131
    JOB REPORT SP
    JOB FREEMAIN RU,SP=131

It prints:
    1 JOB REGION BELOW 1 ABOVE 0
    2 JOB ATTACHED
    3 A RC 0
    4 JOB SP 0 OWNED PLAIN 0 POOL 0
    4 JOB SP 131 OWNED PLAIN 8 POOL 0
    5 JOB RC 0
    STEP ENDED RC 0
";

pub const RULE_70: &str =
    r"Rule 70: 131 and 132 cannot be given or shared. They are freed only with the
job step task.

Source: This project's choice.

Example:
    JOB REGION BELOW=1
    JOB ATTACH TASK=A
    A GETMAIN R,LV=8,A=X,SP=132
    A RETURN
    JOB REPORT SP

It prints:
    1 JOB REGION BELOW 1 ABOVE 0
    2 JOB ATTACHED
    3 A RC 0
    4 A ENDED
    5 JOB SP 0 OWNED PLAIN 0 POOL 0
    5 JOB SP 132 OWNED PLAIN 8 POOL 0
    STEP ENDED RC 0
";

pub const RULE_71: &str =
    r"Rule 71: The steps of a job run one after another. A step inherits nothing
from the step before: no tasks, no storage, no pools.

Source: z/OS MVS Programming: Assembler Services Guide, storage is freed at
the end of the job step task (section not verified).

Example:
    ONE REGION BELOW=1
    ONE GETMAIN R,LV=8,A=X
    TWO REGION BELOW=1
    TWO SHOW X,8

It prints:
    1 ONE REGION BELOW 1 ABOVE 0
    2 ONE RC 0
    STEP ENDED RC 0
    3 TWO REGION BELOW 1 ABOVE 0
    4 TWO NO NAME
    STEP ENDED RC 0
";

pub const RULE_72: &str = r"Rule 72: The next step runs even if a task of the step before abended.

Source: This project's choice.

Example:
    ONE REGION BELOW=1
    ONE ABEND 1
    TWO REGION BELOW=1
    TWO GETMAIN R,LV=8,A=X

It prints:
    1 ONE REGION BELOW 1 ABOVE 0
    2 ONE ABEND U0001
    STEP ENDED RC 8
    3 TWO REGION BELOW 1 ABOVE 0
    4 TWO RC 0
    STEP ENDED RC 0
";

pub const RULE_73: &str =
    r"Rule 73: A statement of a task that is not active does nothing. The reply is
NOT RUN.

Source: This project's choice.

Example:
    JOB REGION BELOW=1
    JOB ATTACH TASK=A
    A RETURN
    A GETMAIN R,LV=8,A=X

It prints:
    1 JOB REGION BELOW 1 ABOVE 0
    2 JOB ATTACHED
    3 A ENDED
    4 A NOT RUN
    STEP ENDED RC 0
";

pub const RULE_74: &str =
    r"Rule 74: A request that uses a name which no granted request of its step has
set is not made. The reply is NO NAME.

Source: This project's choice.

Example:
    JOB REGION BELOW=1
    JOB SHOW X,8

It prints:
    1 JOB REGION BELOW 1 ABOVE 0
    2 JOB NO NAME
    STEP ENDED RC 0
";
