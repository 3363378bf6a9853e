//! The texts of the rules of storage: 1 to 37.

pub const RULE_1: &str =
    r"Rule 1: There is a region below 16 megabytes and one above. The first begins
at X'00006000', the second at X'01000000'.

Source: This project's choice (the first addresses).

Example:
    JOB REGION BELOW=1,ABOVE=1
    JOB GETMAIN RU,LV=8,A=X,LOC=BELOW
    JOB GETMAIN RU,LV=8,A=Y,LOC=ANY
    JOB WHERE X
    JOB WHERE Y

It prints:
    1 JOB REGION BELOW 1 ABOVE 1
    2 JOB RC 0
    3 JOB RC 0
    4 JOB AT 00006000
    5 JOB AT 01000000
    STEP ENDED RC 0
";

pub const RULE_2: &str = r"Rule 2: An address has 31 bits.

Source: z/OS MVS Programming: Assembler Services Guide, virtual storage
management (section not verified).

Example:
    JOB REGION BELOW=1
    JOB SHOW X'7FFFFFFF',1

It prints:
    1 JOB REGION BELOW 1 ABOVE 0
    2 JOB ABEND S0C4
    STEP ENDED RC 8
";

pub const RULE_3: &str =
    r"Rule 3: Lengths are rounded up to a multiple of 8, and every area begins on a
doubleword.

Source: z/OS MVS Programming: Assembler Services Reference, GETMAIN, LV.

Example:
    JOB REGION BELOW=1
    JOB GETMAIN R,LV=9,A=X
    JOB GETMAIN R,LV=8,A=Y
    JOB WHERE X
    JOB WHERE Y

It prints:
    1 JOB REGION BELOW 1 ABOVE 0
    2 JOB RC 0
    3 JOB RC 0
    4 JOB AT 00006000
    5 JOB AT 00006010
    STEP ENDED RC 0
";

pub const RULE_4: &str =
    r"Rule 4: A page that holds storage of one subpool is not used for any other.

Source: z/OS MVS Programming: Assembler Services Guide, virtual storage
management, subpools (section not verified).

Example:
    JOB REGION BELOW=1
    JOB GETMAIN RC,LV=8,A=X,SP=1
    JOB GETMAIN RC,LV=8,A=Y,SP=2
    JOB GETMAIN RC,LV=8,A=Z,SP=1

It prints:
    1 JOB REGION BELOW 1 ABOVE 0
    2 JOB RC 0
    3 JOB RC 4
    4 JOB RC 0
    STEP ENDED RC 0
";

pub const RULE_5: &str =
    r"Rule 5: A page is free for every subpool as soon as nothing in it is held.

Source: This project's choice.

Example:
    JOB REGION BELOW=1
    JOB GETMAIN RC,LV=8,A=X,SP=1
    JOB FREEMAIN RC,LV=8,A=X,SP=1
    JOB GETMAIN RC,LV=8,A=Y,SP=2

It prints:
    1 JOB REGION BELOW 1 ABOVE 0
    2 JOB RC 0
    3 JOB RC 0
    4 JOB RC 0
    STEP ENDED RC 0
";

pub const RULE_6: &str =
    r"Rule 6: An area can extend over several pages: pages of its own subpool, and
free pages next to them.

Source: This project's choice; MVS likely does otherwise
(docs/DIFFERENCES.md).

Example:
    JOB REGION BELOW=3
    JOB GETMAIN R,LV=10000,A=X
    JOB REPORT MAP

It prints:
    1 JOB REGION BELOW 3 ABOVE 0
    2 JOB RC 0
    3 JOB MAP 00006000 00003000 SP 0 OWNER JOB
    STEP ENDED RC 0
";

pub const RULE_7: &str = r"Rule 7: A new area or cell is filled with the fill byte.

Source: This project's choice; MVS promises zeros only in some cases.

Example:
    JOB REGION BELOW=1,FILL=A5
    JOB GETMAIN R,LV=8,A=X
    JOB SHOW X,8

It prints:
    1 JOB REGION BELOW 1 ABOVE 0
    2 JOB RC 0
    3 JOB DATA +0000 A5A5A5A5A5A5A5A5
    STEP ENDED RC 0
";

pub const RULE_8: &str = r"Rule 8: A program can use subpools 0 to 127, 131 and 132. Without SP= the
number is 0.

Source: z/OS MVS Programming: Assembler Services Guide, virtual storage
management, subpools (section not verified).

Example:
    JOB REGION BELOW=2
    JOB GETMAIN R,LV=8,A=X
    JOB GETMAIN R,LV=8,A=Y,SP=127
    JOB REPORT SP

It prints:
    1 JOB REGION BELOW 2 ABOVE 0
    2 JOB RC 0
    3 JOB RC 0
    4 JOB SP 0 OWNED PLAIN 8 POOL 0
    4 JOB SP 127 OWNED PLAIN 8 POOL 0
    STEP ENDED RC 0
";

pub const RULE_9: &str =
    r"Rule 9: Any number other than 0 to 127, 131 and 132 causes an abend, even in a
conditional request.

Source: z/OS MVS System Codes, B78, B0A, B04; that a conditional request
abends: this project's choice.

Example:
    JOB REGION BELOW=1
    JOB GETMAIN RC,LV=8,A=X,SP=128

It prints:
    1 JOB REGION BELOW 1 ABOVE 0
    2 JOB ABEND SB78
    STEP ENDED RC 8
";

pub const RULE_10: &str =
    r"Rule 10: A form that ends in C is conditional: if the area does not fit, it
returns 4 and changes nothing.

Source: z/OS MVS Programming: Assembler Services Reference, GETMAIN, return
codes.

Example:
    JOB REGION BELOW=1
    JOB GETMAIN RC,LV=4097,A=X
    JOB REPORT SP

It prints:
    1 JOB REGION BELOW 1 ABOVE 0
    2 JOB RC 4
    3 JOB SP NONE
    STEP ENDED RC 0
";

pub const RULE_11: &str =
    r"Rule 11: R, and forms that end in U, abend if the area does not fit: 80A for
R, 804 for E, V and L, 878 for RC, RU, VRC, VRU and STORAGE.

Source: z/OS MVS System Codes, 80A, 804, 878.

Example:
    JOB REGION BELOW=1
    JOB ATTACH TASK=A
    A GETMAIN EU,LV=4097,A=X
    JOB ATTACH TASK=A
    A GETMAIN RU,LV=4097,A=X
    JOB GETMAIN R,LV=4097,A=X

It prints:
    1 JOB REGION BELOW 1 ABOVE 0
    2 JOB ATTACHED
    3 A ABEND S804
    4 JOB ATTACHED
    5 A ABEND S878
    6 JOB ABEND S80A
    STEP ENDED RC 8
";

pub const RULE_12: &str =
    r"Rule 12: An obtain is refused for a shortage only if no place of the least
length exists.

Source: This project's choice: MVS may have other reasons.

Example:
    JOB REGION BELOW=1
    JOB GETMAIN R,LV=8,A=X
    JOB GETMAIN RC,LV=4088,A=Y
    JOB GETMAIN RC,LV=8,A=Z

It prints:
    1 JOB REGION BELOW 1 ABOVE 0
    2 JOB RC 0
    3 JOB RC 0
    4 JOB RC 4
    STEP ENDED RC 0
";

pub const RULE_13: &str = r"Rule 13: R, E, V and L obtain only below 16 megabytes.

Source: z/OS MVS Programming: Assembler Services Reference, GETMAIN, LOC.

Example:
    JOB REGION BELOW=1,ABOVE=10
    JOB GETMAIN R,LV=4096,A=X
    JOB GETMAIN EC,LV=8,A=Y

It prints:
    1 JOB REGION BELOW 1 ABOVE 10
    2 JOB RC 0
    3 JOB RC 4
    STEP ENDED RC 0
";

pub const RULE_14: &str =
    r"Rule 14: LOC=BELOW and LOC=24 obtain below. LOC=ANY and LOC=31 obtain above if
the area fits there, else below.

Source: z/OS MVS Programming: Assembler Services Reference, GETMAIN, LOC.

Example:
    JOB REGION BELOW=1,ABOVE=1
    JOB GETMAIN RU,LV=4096,A=X,LOC=ANY
    JOB GETMAIN RU,LV=4096,A=Y,LOC=ANY
    JOB WHERE X
    JOB WHERE Y

It prints:
    1 JOB REGION BELOW 1 ABOVE 1
    2 JOB RC 0
    3 JOB RC 0
    4 JOB AT 01000000
    5 JOB AT 00006000
    STEP ENDED RC 0
";

pub const RULE_15: &str = r"Rule 15: LOC=RES follows the residence of the program of the task.

Source: z/OS MVS Programming: Assembler Services Reference, GETMAIN, LOC.

Example:
    JOB REGION BELOW=1,ABOVE=1,RES=ABOVE
    JOB GETMAIN RU,LV=8,A=X
    JOB WHERE X

It prints:
    1 JOB REGION BELOW 1 ABOVE 1
    2 JOB RC 0
    3 JOB AT 01000000
    STEP ENDED RC 0
";

pub const RULE_16: &str = r"Rule 16: BNDRY=PAGE begins on a page, BNDRY=DBLWD on a doubleword.

Source: z/OS MVS Programming: Assembler Services Reference, GETMAIN, BNDRY;
that R takes it: this project's choice, and likely not so on MVS
(docs/DIFFERENCES.md).

Example:
    JOB REGION BELOW=2
    JOB GETMAIN R,LV=8,A=X
    JOB GETMAIN R,LV=8,A=Y,BNDRY=PAGE
    JOB WHERE Y

It prints:
    1 JOB REGION BELOW 2 ABOVE 0
    2 JOB RC 0
    3 JOB RC 0
    4 JOB AT 00007000
    STEP ENDED RC 0
";

pub const RULE_17: &str = r"Rule 17: STARTBDY=k begins on a multiple of 2 to the power k.

Source: z/OS MVS Programming: Assembler Services Reference, GETMAIN, STARTBDY.

Example:
    JOB REGION BELOW=1
    JOB GETMAIN RU,LV=8,A=X
    JOB GETMAIN RU,LV=8,A=Y,STARTBDY=6
    JOB WHERE Y

It prints:
    1 JOB REGION BELOW 1 ABOVE 0
    2 JOB RC 0
    3 JOB RC 0
    4 JOB AT 00006040
    STEP ENDED RC 0
";

pub const RULE_18: &str =
    r"Rule 18: CONTBDY=k: the area does not cross a multiple of 2 to the power k. A
greater length is a shortage.

Source: z/OS MVS Programming: Assembler Services Reference, GETMAIN, CONTBDY;
that it is a shortage: this project's choice.

Example:
    JOB REGION BELOW=1
    JOB GETMAIN RU,LV=24,A=X
    JOB GETMAIN RU,LV=16,A=Y,CONTBDY=5
    JOB WHERE Y
    JOB GETMAIN RC,LV=40,A=Z,CONTBDY=5

It prints:
    1 JOB REGION BELOW 1 ABOVE 0
    2 JOB RC 0
    3 JOB RC 0
    4 JOB AT 00006020
    5 JOB RC 4
    STEP ENDED RC 0
";

pub const RULE_19: &str = r"Rule 19: BNDRY excludes STARTBDY and CONTBDY.

Source: This project's choice.

Example:
    JOB REGION BELOW=1
    JOB GETMAIN RU,LV=8,A=X,BNDRY=PAGE,CONTBDY=12

It prints:
    1 JOB REGION BELOW 1 ABOVE 0
    2 JS08
    JOB FAULT RC 12
";

pub const RULE_20: &str =
    r"Rule 20: A variable request obtains the greatest length that fits, between the
smallest and the largest, and returns it.

Source: z/OS MVS Programming: Assembler Services Reference, GETMAIN, VRC and
VC.

Example:
    JOB REGION BELOW=1
    JOB GETMAIN RU,LV=1000,A=X
    JOB GETMAIN VRC,LV=(4096,8),A=Y

It prints:
    1 JOB REGION BELOW 1 ABOVE 0
    2 JOB RC 0
    3 JOB RC 0 LENGTH 00000C18
    STEP ENDED RC 0
";

pub const RULE_21: &str = r"Rule 21: With LOC=ANY, a variable request obtains the greatest length in
either region, and above if both are equal.

Source: This project's choice.

Example:
    JOB REGION BELOW=2,ABOVE=1
    JOB GETMAIN VRC,LV=(20000,8),A=X,LOC=ANY
    JOB WHERE X

It prints:
    1 JOB REGION BELOW 2 ABOVE 1
    2 JOB RC 0 LENGTH 00002000
    3 JOB AT 00006000
    STEP ENDED RC 0
";

pub const RULE_22: &str = r"Rule 22: A list is granted completely or not at all.

Source: This project's choice.

Example:
    JOB REGION BELOW=1
    JOB GETMAIN LC,LA=(2048,4096),A=(X,Y)
    JOB WHERE X

It prints:
    1 JOB REGION BELOW 1 ABOVE 0
    2 JOB RC 4
    3 JOB NO NAME
    STEP ENDED RC 0
";

pub const RULE_23: &str = r"Rule 23: The members of a list are placed one after another. No better
arrangement is searched for.

Source: This project's choice.

Example:
    JOB REGION BELOW=2
    JOB GETMAIN RU,LV=4088,A=X
    JOB GETMAIN LC,LA=(8,4096),A=(Y,Z)
    JOB WHERE Y
    JOB WHERE Z

It prints:
    1 JOB REGION BELOW 2 ABOVE 0
    2 JOB RC 0
    3 JOB RC 0
    4 JOB AT 00006FF8
    5 JOB AT 00007000
    STEP ENDED RC 0
";

pub const RULE_24: &str =
    r"Rule 24: An area is placed at the lowest address that fits, or at the highest
with --place high.

Source: This project's choice.

Example:
    JOB REGION BELOW=1
    JOB GETMAIN R,LV=8,A=X
    JOB GETMAIN R,LV=8,A=Y
    JOB FREEMAIN R,LV=8,A=X
    JOB GETMAIN R,LV=8,A=Z
    JOB WHERE Z

It prints:
    1 JOB REGION BELOW 1 ABOVE 0
    2 JOB RC 0
    3 JOB RC 0
    4 JOB RC 0
    5 JOB RC 0
    6 JOB AT 00006000
    STEP ENDED RC 0
";

pub const RULE_25: &str = r"Rule 25: A refused request changes nothing.

Source: This project's choice.

Example:
    JOB REGION BELOW=1
    JOB GETMAIN R,LV=8,A=X
    JOB FREEMAIN RC,LV=16,A=X
    JOB REPORT SP

It prints:
    1 JOB REGION BELOW 1 ABOVE 0
    2 JOB RC 0
    3 JOB RC 4
    4 JOB SP 0 OWNED PLAIN 8 POOL 0
    STEP ENDED RC 0
";

pub const RULE_26: &str = r"Rule 26: A release names a subpool number, an address and a length. The
subpool must hold all of it.

Source: z/OS MVS Programming: Assembler Services Reference, FREEMAIN.

Example:
    JOB REGION BELOW=1
    JOB GETMAIN R,LV=8,A=X
    JOB FREEMAIN RC,LV=16,A=X
    JOB FREEMAIN RC,LV=8,A=X,SP=5
    JOB FREEMAIN RC,LV=8,A=X

It prints:
    1 JOB REGION BELOW 1 ABOVE 0
    2 JOB RC 0
    3 JOB RC 4
    4 JOB RC 4
    5 JOB RC 0
    STEP ENDED RC 0
";

pub const RULE_27: &str = r"Rule 27: A release can cover part of an area, or several adjacent areas.

Source: z/OS MVS Programming: Assembler Services Guide, virtual storage
management (section not verified).

Example:
    JOB REGION BELOW=1
    JOB GETMAIN R,LV=8,A=X
    JOB GETMAIN R,LV=8,A=Y
    JOB FREEMAIN R,LV=16,A=X
    JOB REPORT SP

It prints:
    1 JOB REGION BELOW 1 ABOVE 0
    2 JOB RC 0
    3 JOB RC 0
    4 JOB RC 0
    5 JOB SP 0 OWNED PLAIN 0 POOL 0
    STEP ENDED RC 0
";

pub const RULE_28: &str =
    r"Rule 28: If part of the range is not held, a conditional release returns 4 and
frees nothing. Others abend: A0A for R, A05 for E, V and L, A78 for the rest.

Source: z/OS MVS System Codes, A0A, A05, A78; that it frees nothing, and that
one code says all of it: this project's choice, and likely not so on MVS
(docs/DIFFERENCES.md).

Example:
    JOB REGION BELOW=1
    JOB GETMAIN R,LV=8,A=X
    JOB FREEMAIN RC,LV=16,A=X
    JOB FREEMAIN R,LV=16,A=X

It prints:
    1 JOB REGION BELOW 1 ABOVE 0
    2 JOB RC 0
    3 JOB RC 4
    4 JOB ABEND SA0A
    STEP ENDED RC 8
";

pub const RULE_29: &str =
    r"Rule 29: An address that is not on a doubleword abends, even in a conditional
release: 90A, 905, 978.

Source: z/OS MVS System Codes, 90A, 905, 978; that a conditional release
abends: this project's choice.

Example:
    JOB REGION BELOW=1
    JOB GETMAIN R,LV=16,A=X
    JOB FREEMAIN RC,LV=8,A=X+4

It prints:
    1 JOB REGION BELOW 1 ABOVE 0
    2 JOB RC 0
    3 JOB ABEND S978
    STEP ENDED RC 8
";

pub const RULE_30: &str = r"Rule 30: An invalid subpool number abends: B0A, B05, B78.

Source: z/OS MVS System Codes, B0A, B05, B78.

Example:
    JOB REGION BELOW=1
    JOB GETMAIN R,LV=8,A=X
    JOB FREEMAIN RC,LV=8,A=X,SP=130

It prints:
    1 JOB REGION BELOW 1 ABOVE 0
    2 JOB RC 0
    3 JOB ABEND SB78
    STEP ENDED RC 8
";

pub const RULE_31: &str = r"Rule 31: Each family of forms has one code for each of these causes.

Source: This project's choice.

Example:
    JOB REGION BELOW=1
    JOB ATTACH TASK=A
    A GETMAIN EU,LV=8,A=X,SP=130
    JOB ATTACH TASK=A
    A FREEMAIN EU,LV=8,A=X'6001'
    JOB FREEMAIN EU,LV=8,A=X'6000'

It prints:
    1 JOB REGION BELOW 1 ABOVE 0
    2 JOB ATTACHED
    3 A ABEND SB04
    4 JOB ATTACHED
    5 A ABEND S905
    6 JOB ABEND SA05
    STEP ENDED RC 8
";

pub const RULE_32: &str =
    r"Rule 32: A list is released completely or not at all. Two members that overlap
count as storage that is not held.

Source: This project's choice.

Example:
    JOB REGION BELOW=1
    JOB GETMAIN R,LV=16,A=X
    JOB FREEMAIN LC,LA=(16,8),A=(X,X+8)
    JOB FREEMAIN LC,LA=(8,8),A=(X,X+8)

It prints:
    1 JOB REGION BELOW 1 ABOVE 0
    2 JOB RC 0
    3 JOB RC 4
    4 JOB RC 0
    STEP ENDED RC 0
";

pub const RULE_33: &str =
    r"Rule 33: FREEMAIN R, RC, RU and STORAGE RELEASE without an area release all
storage of the subpool, whichever task obtained it.

Source: z/OS MVS Programming: Assembler Services Reference, FREEMAIN, subpool
release.

Example:
    JOB REGION BELOW=1
    JOB ATTACH TASK=A,SHSPV=5
    A GETMAIN R,LV=8,A=X,SP=5
    JOB FREEMAIN RU,SP=5
    JOB REPORT SP

It prints:
    1 JOB REGION BELOW 1 ABOVE 0
    2 JOB ATTACHED
    3 A RC 0
    4 JOB RC 0
    5 JOB SP 0 OWNED PLAIN 0 POOL 0
    5 JOB SP 5 OWNED PLAIN 0 POOL 0
    STEP ENDED RC 0
";

pub const RULE_34: &str =
    r"Rule 34: After a release of the whole subpool, the subpool itself remains,
empty. Releasing a subpool that is empty or that the task does not have
returns 0.

Source: This project's choice.

Example:
    JOB REGION BELOW=1
    JOB GETMAIN R,LV=8,A=X,SP=5
    JOB FREEMAIN RU,SP=5
    JOB REPORT SP
    JOB FREEMAIN RU,SP=5

It prints:
    1 JOB REGION BELOW 1 ABOVE 0
    2 JOB RC 0
    3 JOB RC 0
    4 JOB SP 5 OWNED PLAIN 0 POOL 0
    5 JOB RC 0
    STEP ENDED RC 0
";

pub const RULE_35: &str = r"Rule 35: Subpool 0 cannot be released as a whole: U4006.

Source: This project's choice; MVS has 40A and 478, as far as known
(docs/DIFFERENCES.md).

Example:
    JOB REGION BELOW=1
    JOB FREEMAIN RU,SP=0

It prints:
    1 JOB REGION BELOW 1 ABOVE 0
    2 JOB ABEND U4006
    STEP ENDED RC 8
";

pub const RULE_36: &str = r"Rule 36: Any form can release storage of either region.

Source: This project's choice.

Example:
    JOB REGION BELOW=1,ABOVE=1
    JOB GETMAIN RU,LV=8,A=X,LOC=ANY
    JOB FREEMAIN R,LV=8,A=X

It prints:
    1 JOB REGION BELOW 1 ABOVE 1
    2 JOB RC 0
    3 JOB RC 0
    STEP ENDED RC 0
";

pub const RULE_37: &str = r"Rule 37: A release does not clear names. A name keeps its address.

Source: This project's choice.

Example:
    JOB REGION BELOW=1
    JOB GETMAIN R,LV=8,A=X
    JOB FREEMAIN R,LV=8,A=X
    JOB WHERE X

It prints:
    1 JOB REGION BELOW 1 ABOVE 0
    2 JOB RC 0
    3 JOB RC 0
    4 JOB AT 00006000
    STEP ENDED RC 0
";
