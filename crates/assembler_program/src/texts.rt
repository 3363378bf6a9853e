//! The parts of a program that are the same in each.

/// The job.
pub const JOB: &str = "//MVSJOB   JOB ,'MVSJOB',MSGCLASS=H
//*";

/// The first of a program's tasks: it gives each line to its task, waits for the answer, and prints it.
pub const DRIVER: &str = "MVSJOB   CSECT
MVSJOB   AMODE 31
MVSJOB   RMODE 24
         SYSSTATE ARCHLVL=2
         STM   14,12,12(13)
         LARL  12,MVSJOB
         USING MVSJOB,12
         LA    2,SAVE
         ST    13,4(,2)
         ST    2,8(,13)
         LR    13,2
         LARL  1,TASKRUN
         IDENTIFY EP=MVSTASK,ENTRY=(1)
         LARL  9,LINES
         USING LINE,9
         L     10,LNSLOT
         USING SLOT,10
         LARL  1,TREGION
         BRAS  14,SAY
         ATTACHX EP=MVSTASK,PARAM=(FIRST),VL=1,ECB=FIRST+8,SZERO=NO
         ST    1,SLTCB
         OI    SLFLAGS,SLACTIVE
*  The next line.
NEXT     LA    9,LNLEN(,9)
         L     10,LNSLOT
         LTR   10,10
         JZ    STEPEND
         TM    SLFLAGS,SLACTIVE
         JO    ACTIVE
         LARL  1,TNOTRUN
         BRAS  14,SAY
         J     NEXT
*  Its task is active: it does what the line says.
ACTIVE   MVC   SLROUT,LNROUT
         XC    SLDONE,SLDONE
         POST  SLTURN
         LA    2,SLLIST
         WAIT  1,ECBLIST=(2)
         TM    SLEND,X'40'
         JO    ENDED
         L     1,REPLY
         LTR   1,1
         JZ    DATA
         BRAS  14,SAY
         J     NEXT
*  The bytes that SHOW has read, 32 in a line.
DATA     LARL  6,BUFFER
         SR    7,7
DATA1    L     5,DATALEN
         SR    5,7
         JNP   NEXT
         CHI   5,32
         JNH   DATA2
         LHI   5,32
DATA2    LR    0,7
         BRAS  14,HEX
         MVC   TDATAOFF,HEXOUT+4
         LA    4,TDATAHEX
         LR    3,5
DATA3    SR    0,0
         IC    0,0(6,7)
         BRAS  14,HEX
         MVC   0(2,4),HEXOUT+6
         LA    4,2(,4)
         LA    7,1(,7)
         BRCT  3,DATA3
         LA    3,TDATAOFF
         SR    4,3
         LA    4,TDATAOFF-TDATA-2(,4)
         STH   4,TDATA
         LA    1,TDATA
         BRAS  14,SAY
         J     DATA1
*  Its task has ended: with RETURN, or with an abend.
ENDED    NI    SLFLAGS,255-SLACTIVE
         OI    SLFLAGS,SLDEAD
         L     3,SLCODE
         TM    SLFLAGS,SLABEND
         JO    ABENDED
         L     3,SLEND
         N     3,=X'00FFFFFF'
         JNZ   ABENDED
         LARL  1,TENDED
         BRAS  14,SAY
         J     NEXT
ABENDED  MVI   ANYABEND,8
         LR    0,3
         BRAS  14,HEX
         LR    4,3
         SRL   4,12
         N     4,=X'00000FFF'
         JZ    USERCODE
         MVC   TSYSCODE,HEXOUT+2
         LARL  1,TSYSTEM
         BRAS  14,SAY
         J     FALLEN
USERCODE N     3,=X'00000FFF'
         CVD   3,PACKED
         UNPK  TUSRCODE,PACKED+5(3)
         OI    TUSRCODE+3,X'F0'
         LARL  1,TUSER
         BRAS  14,SAY
*  Its subtasks, and theirs, have ended with it.
FALLEN   LARL  6,TASKS
         LR    7,10
         MVC   TWITHNAM,SLNAME
         LH    3,SLNAMEL
         LA    3,TWITHNAM-TWITH-2(,3)
         STH   3,TWITH
FALLEN1  L     10,0(,6)
         LTR   10,10
         JZ    NEXT
         TM    SLFLAGS,SLACTIVE
         JNO   FALLEN3
         L     5,SLMOTHER
FALLEN2  LTR   5,5
         JZ    FALLEN3
         CR    5,7
         JE    FALLEN4
         L     5,SLMOTHER-SLOT(,5)
         J     FALLEN2
FALLEN4  NI    SLFLAGS,255-SLACTIVE
         LA    1,TWITH
         BRAS  14,SAY
FALLEN3  LA    6,4(,6)
         J     FALLEN1
*  The end of the step. What is still active ends with its first task.
STEPEND  MVC   TSTEPRC,RCZERO
         CLI   ANYABEND,0
         JE    STEPEND1
         MVC   TSTEPRC,RCEIGHT
STEPEND1 LARL  2,TSTEP
         BRAS  14,TELL
         LARL  10,FIRST
         LA    2,SLTCB
         DETACH (2),STAE=NO
         SR    15,15
         IC    15,ANYABEND
         L     13,4(,13)
         L     14,12(,13)
         LM    0,12,20(13)
         BR    14
*  Prints the text at register 1, after the line and its task.
SAY      ST    14,SAYBACK
         LA    2,OUTTEXT
         SR    3,3
         IC    3,LNDIGITS
         BCTR  3,0
         EX    3,MVCLINE
         LA    2,1(3,2)
         MVI   0(2),C' '
         LA    2,1(,2)
         LH    3,SLNAMEL
         BCTR  3,0
         EX    3,MVCTASK
         LA    2,1(3,2)
         MVI   0(2),C' '
         LA    2,1(,2)
         LH    3,0(,1)
         BCTR  3,0
         EX    3,MVCTEXT
         LA    2,1(3,2)
         LA    3,OUTTAG
         SR    2,3
         STH   2,OUT
         LA    2,OUT
         BRAS  14,WRITE
         L     14,SAYBACK
         BR    14
MVCLINE  MVC   0(0,2),LNNUMBER
MVCTASK  MVC   0(0,2),SLNAME
MVCTEXT  MVC   0(0,2),2(1)
*  Tells the text at register 2 alone.
TELL     ST    14,SAYBACK
         LH    3,0(,2)
         BCTR  3,0
         EX    3,MVCALONE
         LA    3,OUTTEXT-OUTTAG+1(,3)
         STH   3,OUT
         LA    2,OUT
         BRAS  14,WRITE
         L     14,SAYBACK
         BR    14
MVCALONE MVC   OUTTEXT(0),2(2)
*  Writes the message at register 2.
WRITE    ST    14,WRBACK
         WTO   TEXT=(2),MF=(E,MESSAGE)
         L     14,WRBACK
         BR    14
*  Eight digits for register 0.
HEX      ST    0,HEXIN
         UNPK  HEXOUT(9),HEXIN(5)
         TR    HEXOUT(8),HEXTAB-240
         BR    14
MESSAGE  WTO   TEXT=,ROUTCDE=(11),MF=L
SAVE     DC    18F'0'
SAYBACK  DC    F'0'
WRBACK   DC    F'0'
REPLY    DC    A(0)
DATALEN  DC    F'0'
PACKED   DC    D'0'
HEXIN    DC    F'0',X'00'
HEXOUT   DC    CL9' '
HEXTAB   DC    C'0123456789ABCDEF'
ANYABEND DC    X'00'
RCZERO   DC    C'0'
RCEIGHT  DC    C'8'
         DS    0H
OUT      DC    H'0'
OUTTAG   DC    C'MVSJOB '
OUTTEXT  DC    CL110' '
         DS    0H
TNOTRUN  DC    H'7',C'NOT RUN'
TENDED   DC    H'5',C'ENDED'
TSYSTEM  DC    H'10',C'ABEND S'
TSYSCODE DC    CL3' '
         DS    0H
TUSER    DC    H'11',C'ABEND U'
TUSRCODE DC    CL4' '
         DS    0H
TWITH    DC    H'0',C'ENDED WITH '
TWITHNAM DC    CL8' '
         DS    0H
TDATA    DC    H'0',C'DATA +'
TDATAOFF DC    CL4' ',C' '
TDATAHEX DC    CL64' '
         DS    0H
TSTEP    DC    H'15',C'STEP ENDED RC '
TSTEPRC  DC    C'0'
         DS    0H
         LTORG
         DROP  12,9,10";

/// What each of the script's tasks does: it waits for its turn, does what the line says, and says that it is done.
pub const TASK: &str = "*  A task: its slot is the first parameter.
TASKRUN  DS    0H
         STM   14,12,12(13)
         L     10,0(,1)
         N     10,=X'7FFFFFFF'
         USING SLOT,10
         LA    2,SLSAVE
         ST    13,4(,2)
         LR    13,2
         LARL  11,TASKRUN
         USING TASKRUN,11
         LARL  2,RECOVER
         ESTAEX (2),CT,PARAM=(10)
TASKTURN LA    2,SLTURN
         WAIT  ECB=(2)
         XC    SLTURN,SLTURN
         LARL  6,TASKS
*  Its subtasks that have ended are detached.
SWEEP    L     5,0(,6)
         LTR   5,5
         JZ    SWEPT
         TM    SLFLAGS-SLOT(5),SLDEAD
         JNO   SWEEP1
         C     10,SLMOTHER-SLOT(,5)
         JNE   SWEEP1
         NI    SLFLAGS-SLOT(5),255-SLDEAD
         LA    2,SLTCB-SLOT(,5)
         DETACH (2)
SWEEP1   LA    6,4(,6)
         J     SWEEP
SWEPT    L     15,SLROUT
         BASR  8,15
         LA    2,SLDONE
         POST  (2)
         J     TASKTURN
*  RETURN.
TASKRETN LARL  11,TASKRUN
         ESTAEX 0
         L     13,4(,13)
         LM    14,12,12(13)
         SR    15,15
         BR    14
         LTORG
         DROP  10,11
*  An abend of a task: its code is kept, and the task ends.
RECOVER  DS    0H
         CHI   0,12
         JE    RECOVER1
         LR    3,14
         USING SDWA,1
         L     2,SDWAPARM
         L     2,0(,2)
         USING SLOT,2
         L     4,SDWAABCC
         SLL   4,8
         SRL   4,8
         ST    4,SLCODE
         OI    SLFLAGS,SLABEND
         DROP  2
         SETRP RC=0,DUMP=NO
         DROP  1
         LR    14,3
         BR    14
RECOVER1 SR    15,15
         BR    14
*  A new task: its mother is the task that runs.
NEWSLOT  DS    0H
         USING SLOT,2
         XC    SLTURN(12),SLTURN
         MVI   SLFLAGS,0
         ST    10,SLMOTHER
         DROP  2
         BR    14
*  The area of the name at register 2.
SETAREA  ST    1,0(,2)
         ST    0,4(,2)
         MVI   8(2),1
         BR    14
*  Replies.
RC0      LARL  1,TRC0
         J     REPLIED
RC4      LARL  1,TRC4
         J     REPLIED
NONAME   LARL  1,TNONAME
         J     REPLIED
CELL     LARL  1,TCELL
         J     REPLIED
NOCELL   LARL  1,TNOCELL
         J     REPLIED
OKAY     LARL  1,TOKAY
         J     REPLIED
ATTD     ST    1,SLTCB-SLOT(,2)
         OI    SLFLAGS-SLOT(2),SLACTIVE
         LARL  1,TATTD
         J     REPLIED
RCLEN    LARL  12,MVSJOB
         USING MVSJOB,12
         BRAS  14,HEXTASK
         LARL  1,TRCLEN
         MVC   14(8,1),HEXOUT
         J     REPLIED
AT       LARL  12,MVSJOB
         BRAS  14,HEXTASK
         LARL  1,TAT
         MVC   5(8,1),HEXOUT
         J     REPLIED
HEXTASK  ST    0,HEXIN
         UNPK  HEXOUT(9),HEXIN(5)
         TR    HEXOUT(8),HEXTAB-240
         BR    14
SHOWN    LARL  12,MVSJOB
         ST    0,DATALEN
         SR    1,1
REPLIED  LARL  12,MVSJOB
         ST    1,REPLY
         DROP  12
         BR    8
*  What only the script refuses.
NOPOOL   ABEND 4002
TASKUSED ABEND 4009
TRC0     DC    H'4',C'RC 0'
TRC4     DC    H'4',C'RC 4'
TNONAME  DC    H'7',C'NO NAME'
         DS    0H
TCELL    DC    H'4',C'CELL'
TNOCELL  DC    H'7',C'NO CELL'
         DS    0H
TOKAY    DC    H'2',C'OK'
TATTD    DC    H'8',C'ATTACHED'
TRCLEN   DC    H'20',C'RC 0 LENGTH 00000000'
TAT      DC    H'11',C'AT 00000000'
         DS    0H
WORDS    DC    16F'0'";

/// What follows the routines: the places of lines and tasks.
pub const LAYOUTS: &str = "LINE     DSECT
LNSLOT   DS    A
LNROUT   DS    A
LNDIGITS DS    AL1
LNNUMBER DS    CL11
LNLEN    EQU   *-LINE
SLOT     DSECT
SLTURN   DS    F
SLDONE   DS    F
SLEND    DS    F
SLLIST   DS    2A
SLROUT   DS    A
SLTCB    DS    A
SLMOTHER DS    A
SLCODE   DS    F
SLFLAGS  DS    X
SLACTIVE EQU   X'80'
SLDEAD   EQU   X'40'
SLABEND  EQU   X'20'
SLNAMEL  DS    H
SLNAME   DS    CL8
SLSAVE   DS    18F
         IHASDWA
         END   MVSJOB";
