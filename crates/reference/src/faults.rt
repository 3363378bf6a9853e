//! The texts of the faults of a script.

pub const JS01: &str = r"JS01: The line has more than 255 bytes

A line has at most 255 bytes, without its newline. The job ends at this line.

Usual causes:
  - Several statements are in one line.
  - The script is another file than you think.

What to try:
  - Write one statement in a line.
";

pub const JS02: &str = r"JS02: The line has a byte that is not printable

Each byte of a line is one from X'20' to X'7E'. The job ends at this line.

Usual causes:
  - The file has line ends of Windows: X'0D' before the newline.
  - The line has a tab, or a letter that is not ASCII.

What to try:
  - Convert the line ends, and use blanks instead of tabs.
";

pub const JS03: &str = r"JS03: The task, the operation or the form is not known

A statement begins with the name of a task, then has an operation, and for
some operations a form. The job ends at this line.

Usual causes:
  - The operation is misspelled, or in lower case.
  - The line begins with a blank.
  - The name of the task is missing.

What to try:
  - Read the hint on standard error: it often has the word that is meant.

Example:
    JOB REGION BELOW=1
    JOB GETMIAN R,LV=8,A=X

It prints:
    1 JOB REGION BELOW 1 ABOVE 0
    2 JS03
    JOB FAULT RC 12
";

pub const JS04: &str = r"JS04: An operand is malformed, or the statement does not take it

The value has not the form that the operand needs, or the keyword does not
belong to this statement. The job ends at this line.

Usual causes:
  - A decimal number is written in hexadecimal.
  - The keyword belongs to another form: R, for example, takes no LOC.
  - A blank is inside of the operands: what follows it is another operand
    field.

What to try:
  - Read the message on standard error: it says what is expected.

Example:
    JOB REGION BELOW=1
    JOB GETMAIN R,LV=8,A=X,LOC=ANY

It prints:
    1 JOB REGION BELOW 1 ABOVE 0
    2 JS04
    JOB FAULT RC 12
";

pub const JS05: &str = r"JS05: An operand is missing

The statement needs an operand that is not there, or two operands of which
only one is there. The job ends at this line.

Usual causes:
  - A= or LV= is missing.
  - The form is missing: GETMAIN LV=8 instead of GETMAIN R,LV=8.

What to try:
  - Read the message on standard error: it shows where the operand can be
    added.

Example:
    JOB REGION BELOW=1
    JOB GETMAIN R,LV=8

It prints:
    1 JOB REGION BELOW 1 ABOVE 0
    2 JS05
    JOB FAULT RC 12
";

pub const JS06: &str = r"JS06: A number is out of range

A number is too small or too large, the least length is above the greatest, or
a list is too long. The job ends at this line.

Usual causes:
  - The length is 0.
  - A subpool number of ATTACH is 0 or above 127.
  - A list has more than 16 members.

What to try:
  - Read the message on standard error: it has the range.

Example:
    JOB REGION BELOW=1
    JOB GETMAIN R,LV=0,A=X

It prints:
    1 JOB REGION BELOW 1 ABOVE 0
    2 JS06
    JOB FAULT RC 12
";

pub const JS07: &str = r"JS07: A duplicate

A keyword, the name of an area in a list that obtains, or a subpool number in
a list stands twice. The job ends at this line.

Usual causes:
  - A statement was copied and extended.

What to try:
  - Remove one of the two.

Example:
    JOB REGION BELOW=1
    JOB GETMAIN R,LV=8,LV=8,A=X

It prints:
    1 JOB REGION BELOW 1 ABOVE 0
    2 JS07
    JOB FAULT RC 12
";

pub const JS08: &str = r"JS08: Operands exclude each other

BNDRY excludes STARTBDY and CONTBDY. GSPV excludes GSPL, and SHSPV excludes
SHSPL. A number cannot be both given and shared. LA and A have the same number
of members. The job ends at this line.

Usual causes:
  - A number is in GSPL and in SHSPL.
  - LA has one length more than A has names.

What to try:
  - Remove one of the two operands.

Example:
    JOB REGION BELOW=1
    JOB GETMAIN RC,LV=8,A=X,BNDRY=PAGE,STARTBDY=4

It prints:
    1 JOB REGION BELOW 1 ABOVE 0
    2 JS08
    JOB FAULT RC 12
";

pub const JS09: &str = r"JS09: The first statement is not REGION

A script begins with a REGION statement. A script without a statement has this
fault too, in the line after its last one.

Usual causes:
  - The file is empty, or has only comments.
  - The script is a part of a longer one.

What to try:
  - Begin with TASK REGION BELOW=n.

Example:
    JOB GETMAIN R,LV=8,A=X

It prints:
    1 JS09
    JOB FAULT RC 12
";
