//! The pages of codes: a text for each family, in the order of its codes, each page as [`crate::page::Page`] reads it.

pub(crate) const SHEETS: &str = "\
    S1%the card has more than 80 characters%\
    %- a line of 81 characters; a blank in column 81 counts too\
    %- a line of 80 characters, with its line feed after it, or carriage return and line feed\
    %cut off what is after column 80: `cut -c1-80`. Many editors show blanks at the end of a\nline only on request\
    @S2%the card has a byte that is no character%\
    %- a tab, a letter with an accent, a byte order mark before the first card\n- a carriage return that no line feed follows, as at the end of a file\
    %- the characters from blank to ~, and a carriage return right before a line feed\
    %the message names the byte and the command that fixes it, if there is one, such as\n`expand` for tabs. Save the file as plain ASCII text, and end it with a line feed\
    @S3%column 6 has no form type%\
    %- a small letter, and a card that is one column too far left:\n\n     hSALES\n    FSALES   IPE F      80            DISK40\
    %- H, F, E, L, I, C or O in column 6; on a blank card and on a comment, which has * in column 7,\n  anything:\n\n     FSALES   IPE F      80            DISK40\n      * A COMMENT\
    %look at the ruler above the card. Columns 1 to 5 are free for card numbers, and\nletters are capitals everywhere but in texts between apostrophes\
    @S4%the card's form type is earlier than one before%\
    %- a calculation after an output card:\n\n     OPRINT   D        01\n     C           TOTAL     ADD  VALUE     TOTAL\
    %- H, F, E, L, I, C and O cards in this order, those of a sheet together; a sheet that is not\n  needed is left out\
    %move the card to those of its own sheet. The message names the card of a later sheet\nbefore it; if several faults name the same card, move that card\
    @S5%columns have a value that isn't allowed, or a column is filled that must be blank%\
    %- a name that doesn't begin in the first column of its range, or has a small letter:\n\n     I                                        1   30 AMT\n     O                         Value     38\n\n\
    - an end position that ends in column 42: a number is right-aligned:\n\n     O                         VALUE    38\n\n\
    - a condition of two columns that begins in 23, and an indicator that there isn't:\n\n     OPRINT   D       01\n     C           A         COMP B                        00\n\n\
    - a factor beside its columns, or a name of more than six characters in it:\n\n     C            TOT      ADD  1         TOT\n     C           CUSTOMER  ADD  1         TOT\n\n\
    - an operation that isn't one:\n\n     C           TOT       *    2         TOT\n\n\
    - a record code whose position doesn't end in the fourth of its columns:\n\n     IINPUT   AA  01 1   CA\n\n\
    - an L card without FL or OL, a page of fewer than 3 lines or more than 112:\n\n     LPRINT   033  030OL\n\n\
    - a column that is filled and must be blank, or a feature of RPG II that isn't supported:\n\n     OPRINT   DF       01\n     FMASTER  UP  F      80            DISK40\
    %- a name from the first column on, of capitals, digits, $, # and the at sign:\n\n     I                                        1   30AMT\n     O                         VALUE     38\n\n\
    - a number that ends in the last column of its range:\n\n     O                         VALUE     38\n\n\
    - a condition has its blank or N first; indicators are 01 to 99 and those that LANGUAGE lists:\n\n     OPRINT   D        01\n     C           A         COMP B                        20\n\n\
    - a name with its index if it has one, a number, or a text between apostrophes:\n\n     C           TOT       ADD  1         TOT\n     C           AR,3      ADD  1.5       TOT\n     C                     MOVE 'YES'     TEXT\n\n\
    - one of ADD, SUB, MULT, DIV and the others that LANGUAGE lists:\n\n     C           TOT       MULT 2         TOT\n\n\
    - the position, N or blank, C, and the character:\n\n     IINPUT   AA  01   1 CA\n\n\
    - the lines of a page and FL, the overflow line and OL:\n\n     LPRINT   033FL030OL\n\n\
    - the same without it; the message has a workaround:\n\n     OPRINT   D        01\n     FMASTER  IP  F      80            DISK40\
    %the message names the range, its columns and what they may have, or which\nunsupported feature of RPG II it is, with a workaround; and whether moving a text by a column or\ntwo makes the card readable. docs/LANGUAGE.md has all ranges\
    @S6%it is card 2,001%\
    %- the 2,001st line, whatever is on it: blank lines, comments and data count\
    %- 2,000 lines\
    %remove comments, or make two programs of it";

pub(crate) const FAULTS: &str = "\
    F1%a name is used that no card defines%cards\
    %     C                     Z-ADDAMMT      TOT\n     O                         NONE      10\
    %     C                     Z-ADDAMT       TOT\n     O                         TOT       10\
    %a name is defined by an E card, by an input field, or by a calculation with a length\n(49-51) and that result field, wherever these are. Look for a letter that differs, a name a\ncolumn too far left or right, and decimals (52) without a length\
    @F2%a name is defined again in another form%cards\
    %     C                     ADD  AMT       TOT     60\n     C                     Z-ADDAMT       UDATE   60\
    %     C                     ADD  AMT       TOT     50\n     C                     ADD  AMT       TOT\
    %give the length on one card alone, or the same length and decimals on all of them.\nUDATE is predefined\
    @F3%a length or decimals are past their limit, or decimals have no length%cards\
    %- 16 digits; 10 decimals; decimals without a length:\n\n     C                     Z-ADDAMT       TOT    160\n     C                     ADD  AMT       TOT      0\
    %- a number of 1 to 15 digits, decimals among them, of which there are at most 9; a text of 1 to\n  256 characters:\n\n     C                     Z-ADDAMT       TOT    150\n     C                     ADD  AMT       TOT\
    %write the length into 49-51, ending in 51, and the decimals into 52. Both or\nneither\
    @F4%an operand is of the wrong kind, a result field may not be changed, or LOKUP's result has too few entries%cards\
    %- a text in arithmetic, a result that is UDATE, an edit code beside a text:\n\n     C                     ADD  AMT       WORD    5\n     C                     ADD  TOT       UDATE\
    %- numbers in arithmetic, one kind in COMP and LOKUP, anything in MOVE and MOVEL:\n\n     C                     ADD  AMT       TOT\n     C                     MOVE AMT       WORD    5\
    %an input field without a digit in column 52 is a text, even if it holds only\ndigits: for a whole number put 0 there. A result with a length and without decimals is a text\ntoo\
    @F5%an index is missing, not allowed, out of range, or not a plain whole number that is long enough%cards\
    %- an array without an index, entry 6 of 5, an index on something that isn't an array:\n\n     C                     Z-ADD1         AR\n     C                     Z-ADD1         AR,6\n     C                     Z-ADD1         TOT,1\
    %- a number from 1 to the entries, or the name of a number without decimals:\n\n     C                     Z-ADD1         AR,5\n     C                     Z-ADD1         AR,TOT\
    %write a comma and the index right after the name. Whole arrays are allowed in XFOOT and\nLOKUP only\
    @F6%a limit is passed%\
    %- the 1,001st calculation card; the field with which all fields have more than 65,535 bytes; the\n  101st subroutine\
    %- at most 1,000 calculation cards; 4,000 names, and 4,000 fields with the constants; 65,535\n  bytes of fields, a byte a digit or character of each entry; 9,999 entries; 100 subroutines;\n  200 record types, each with 100 codes, 100 control fields and 500 fields; 1,000 lines, each\n  with 50 alternatives of 60 conditions and with 200 fields\
    %the card that passes the limit has the fault. Make two programs of it, or shorten a\ntable\
    @F7%a file or a form is unknown, given twice, of the wrong use or length, or there is no input file%\
    %- a file that no F card has, a second primary file, a printer of more than 132 places:\n\n     FOTHER   IP  F      80            READ40\n     FPRINT   O   F     133            PRINTER\n     OPRNT    D        01\n\n\
    - an L card that isn't the printer's, a second one, an overflow line past the page's last line:\n\n     LPRINT   033FL034OL\
    %- one primary file, and at most one secondary file, one printer and one disk file; record types\n  name the input files and lines the others, the first of each by its name:\n\n     FPRINT   O   F     132            PRINTER\n     OPRINT   D        01\n\n- one L card at most, for the printer:\n\n     LPRINT   033FL030OL\
    %compare the name with the F cards. Card 0 means that no F card is a primary file, as\nin an empty source\
    @F8%an indicator isn't allowed%cards\
    %- a record type that turns on L0, a result that turns on 1P, a line that tests MR where no field\n  has a match level:\n\n     IINPUT   AA  L0\n     C                     ADD  AMT       TOT        1P\n     OPRINT   D        MR\
    %- record types turn on 01 to 99, L1 to L9, LR or H1 to H9, calculations all but L0, 1P and MR;\n  calculations test all but 1P, lines all, MR where a field has a match level (M1 to M9):\n\n     IINPUT   AA  01\n     C                     ADD  AMT       TOT        LR\n     OPRINT   D        1P\
    %take one of 01 to 99. A text field can have an indicator only for blanks (69-70)\
    @F9%a required entry is missing, or an entry isn't allowed%cards\
    %- no operation, a factor 2 that is missing, a factor that the operation doesn't take, a length\n  without a result:\n\n     C           TOT            AMT       TOT\n     C                     ADD            TOT\n     C           TOT       Z-ADDAMT       TOT\
    %     C           TOT       ADD  AMT       TOT\n     C                     Z-ADDAMT       TOT\
    %docs/MESSAGES.md has a table of what each operation has on its card. Lines for the\ndisk file have nothing in 17-22, and an output field has a name or a constant\
    @F10%a label or a subroutine is missing%cards\
    %     C                     GOTO AWAY\n     C                     EXSR NOSUB\
    %     C                     GOTO NEXT\n     C           NEXT      TAG\
    %define the label on a TAG card, and the subroutine on a BEGSR card. GOTO goes to labels\nonly, EXSR to subroutines only\
    @F11%a label's or a subroutine's name is given twice, or is a field's too%cards\
    %- a label that is given twice, or that has the name of a field:\n\n     C           NEXT      TAG\n     C           TOT       TAG\
    %- each label and each subroutine once, under a name of its own:\n\n     C           NEXT      TAG\n     C           NEXT2     TAG\
    %take another name for the later of the two cards\
    @F12%sections are out of order, BEGSR and ENDSR aren't paired, or a card needs one before it%cards\
    %- a detail calculation after a total one or a subroutine; BEGSR without ENDSR; a field before\n  its record type or line:\n\n     CL1                   Z-ADDAMT       TOT\n     C                     ADD  AMT       TOT\
    %- detail calculations, then total calculations (L0 to L9, LR in 7-8), then subroutines (SR),\n  each from BEGSR to ENDSR:\n\n     C                     ADD  AMT       TOT\n     CL1                   Z-ADDAMT       TOT\
    %move the card. AN and OR cards continue the calculation right before them; AND and OR\ncards of I and O continue the type or line right before them\
    @F13%GOTO leads to another section%cards\
    %- out of the detail calculations into a subroutine:\n\n     C                     GOTO OUT\n     CSR         OUT       ENDSR\
    %- a GOTO leads to a label of its own section: the detail calculations, the total calculations,\n  or one subroutine:\n\n     C                     GOTO OUT\n     C           OUT       TAG\
    %set an indicator before the end of the section, and test it where you want to go on.\nUse EXSR to enter a subroutine\
    @F14%a subroutine calls itself, possibly through others%cards\
    %- a subroutine that calls itself, possibly through others:\n\n     CSR         SUB       BEGSR\n     CSR                   EXSR SUB\n     CSR                   ENDSR\
    %- subroutines may call others, as long as none leads back to itself\
    %go back to the subroutine's beginning with GOTO and a label in place of EXSR\
    @F15%H isn't allowed, or MVR doesn't follow a division without H%cards\
    %- H beside an operation that is not rounded; MVR after a DIV with H, or after anything else:\n\n     C           AMT       DIV  3         TOT       H\n     C                     MVR            REM     30\
    %- H beside ADD, SUB, MULT, DIV, Z-ADD, Z-SUB and XFOOT; MVR on the calculation card right after\n  a DIV without H:\n\n     C           AMT       DIV  3         TOT\n     C                     MVR            REM     30\
    %take the H away, or put MVR right after its DIV\
    @F16%a column is outside the record or the line, a skip is past the page, a field is wider than its end, or control or match fields don't agree%cards\
    %- with records of 80 columns and lines of 120 places: columns past the record, an end past the\n  line, a field of 5 digits that ends at place 4, a skip to line 67 of a page of 66:\n\n     I                                       79  810AMT\n     OPRINT   D   67   01\n     O                         TOT      121\n     O                         TOT        4\
    %     I                                       78  800AMT\n     OPRINT   D   66   01\n     O                         TOT      120\n     O                         TOT        5\
    %look at the record length (24-27) on the F card first: of the input file for I\ncards, of the printer for O cards. A page has 66 lines, or those of the L card. A number takes a\nplace for each digit, and what its edit code or word adds. Control fields of one level have the same\nlength in all record types, and so have match fields, of which each type has the same levels or\nnone, a level once, 256 columns in all\
    @F17%an edit code or an edit word doesn't fit%cards\
    %- code Y on a number that doesn't have 6 digits, a fill beside Y, an edit word of 3 places for 5\n  digits:\n\n     O                         TOT   Y   10\n     O                         TOT       10 '   '\
    %- an edit word has a blank, 0 or * for each digit, and no $ right before its stop:\n\n     O                         UDATE Y   10\n     O                         TOT       10 '     '\
    %the message shows how many digits the code or word takes, and how many the number has.\ndocs/EDITING.md shows what each code and word makes of a number\
    @F18%a table's data are missing, too few, too many, bad or out of sequence%\
    %- an E card with entries a card (33-35), and no ** card for it; too few or too many cards of\n  data; letters in a number; with A in 45 a later entry that is lower:\n\n     E                    TABA    3   3  2 0A\n**\n100530\
    %     E                    TABA    3   3  2 0A\n**\n102030\
    %the message shows how many cards of data are needed and how many there are, or\nwhich entry is wrong. The data come after the sheets, each table's after a ** card, in the\norder of the E cards. Only their cards are counted: entries that a card doesn't fill are blank,\nin a number 0, and what comes after the last entry is ignored";

pub(crate) const WARNINGS: &str = "\
    W1%an indicator is tested, and nothing turns it on%cards\
    %- where no card turns on 02, a line that is never output:\n\n     OPRINT   D        02\
    %- an indicator that a record type, an input field, a result, SETON or a full page turns on:\n\n     IINPUT   AA  01\n     OPRINT   D        01\n\n- L0 to L9, LR and 1P, which the machine turns on\
    %look for the card that should turn it on: a record type (19-20), an input field\n(65-70), a result (54-59), or the F card of the printer (33-34). SETOF turns none on\
    @W2%an indicator is turned on, and no card tests it%cards\
    %- where no card tests 30:\n\n     C           AMT       COMP 100                  30\
    %- record types, control levels, a full page, LR and H1 to H9, and the indicator of LOKUP, which\n  has to have one: no card need test these\
    %take it away, or look for the condition that should test it\
    @W3%a field overlaps another of the same line%cards\
    %- TOT takes places 6 to 10 of the line, and AMT 10 to 12:\n\n     O                         TOT       10\n     O                         AMT       12\
    %- fields side by side; a field with conditions (23-31) may be where another is:\n\n     O                         TOT       10\n     O                         AMT       13\n     O                 30                13 'OUT'\
    %count the places: a number takes one for each digit, and what its edit code or word\nadds. rpg2 list draws each line with its places\
    @W4%a result has fewer digits before its point than a factor%cards\
    %- TOT has 5 digits before its point, and SUM 4:\n\n     C           TOT       MULT AMT       SUM     40\
    %- a result with as many as the longer factor. So may a sum be, and a product with a number that\n  has none before its point may be shorter:\n\n     C           TOT       MULT AMT       SUM     80\n     C           TOT       ADD  AMT       TOT\n     C           TOT       MULT .05       TAX     42\
    %give the result field more digits (49-51); a product can have as many as both\nfactors together. Digits on the left that have no place are lost, and nothing halts\
    @W5%a control level is tested, and no field has it%cards\
    %- a calculation (7-8) and a line, where no input field has L1 or L2 in 59-60:\n\n     CL1         TOT       ADD  AMT       TOT\n     OPRINT   T        L2\
    %- a level that an input field has, or that a record type, a result or SETON turns on:\n\n     I                                        1   3 REGIONL2\n     OPRINT   T        L2\
    %write the level into 59-60 of its control field, or take away the level in 7-8 or the\ncondition. A level without a field is on where a higher one breaks, and at the end. L0 and LR are\nalways turned on\
    @W6%PAGE has conditions, and isn't set back to 1%cards\
    %- a page number with a condition of its own (23-31):\n\n     O                 01      PAGE      10\
    %- PAGE without conditions, on a line with conditions:\n\n     OPRINT   H  1     1P\n     O       OR        OF\n     O                         PAGE      10\
    %where page numbers should start again, Z-ADD 0 to PAGE in the calculations, and take\nthe condition away. Here it decides whether PAGE is printed, and counted\
    @W7%SETON turns on a halt indicator, which ends the job%cards\
    %- a halt to call the operator:\n\n     C   30                SETON                     H1\
    %- other indicators, and halt indicators that a record type or a result turns on:\n\n     IINPUT   AA  H1\n     C           AMT       COMP 100                  H2\
    %if the job is to continue, print a line of type E in its place, or test another\nindicator. It ends with halt 6 after the lines of that record, and what was printed is kept\
    @W8%a heading or detail line is written before the first record too%cards\
    %- a detail line without a condition:\n\n     OPRINT   D  1\n     O                         AMT       10\
    %- a line under the indicator of a record type, and a heading on 1P:\n\n     OPRINT   D  1     01\n     OPRINT   H  1     1P\n\n- an exception line, which EXCPT writes:\n\n     OPRINT   E  1\
    %give the line the indicator of the record type that it prints, or 1P if it heads the\nfirst page. Heading and detail lines are also written before the first record is read, when only L0\nand 1P are on; so a condition such as N50 doesn't keep a line back\
    @W9%a total line is written at each total time%cards\
    %- a total line without a condition:\n\n     OPRINT   T  1\n     O                         TOT       10\
    %- a line at a control level or at the end, and one with a condition that has N:\n\n     OPRINT   T  1     L1\n     OPRINT   T  1     LR\n     OPRINT   T  1    NMR\
    %give the line the level whose totals it prints, or LR. Total time comes with each\nrecord after the first, and at the end, so the line is written that often\
    @W10%a total is printed at a control level, and never set back%cards\
    %- TOT is added to for each record, and printed where L1 breaks:\n\n     C   01      TOT       ADD  AMT       TOT\n     OPRINT   T  1     L1\n     O                         TOT       10\
    %- the same with B in column 39:\n\n     O                         TOT    B  10\n\n- a running total, which is printed at LR too; a field that a calculation, a record or a table sets\
    %put B into column 39 of the last card that prints it at that level: it is then set to zero\nafter it is printed. Otherwise the next group's total includes this one's. If it is meant to run on,\nprint it at LR, or allow W10\
    @W11%a result is set, and nothing reads it%cards\
    %- SUM is on no other card:\n\n     C           TOT       ADD  AMT       SUM    60\
    %- a result that is printed, a factor or an index; one with indicators in 54-59; the result of MVR;\n  an input field, a table or an array:\n\n     C           TOT       SUB  AMT       SUM    60    20\
    %take the calculation away, or print or use its result. Look for a name that is spelled in\ntwo ways: ADD and SUB of a field to itself don't count as use\
    @W12%the printer has no overflow indicator, and the first page alone has a heading%cards\
    %- 33-34 of the F card are blank, and the heading is on 1P:\n\n     FPRINT   O   F      60            PRINTER\n     OPRINT   H  2     1P\n     OPRINT   D  1     01\
    %- an overflow indicator, which the heading has as well:\n\n     FPRINT   O   F      60     OF     PRINTER\n     OPRINT   H  201   1P\n     O       OR        OF\n\n- a list without a heading; forms whose own lines skip (19-20)\
    %write OF into 33-34 of the F card, and OR OF after the heading, which skips (19-20). OF turns\non when the paper reaches the overflow line: that of the L card, or 60. Without it the lines go on\nover the fold, and the second page has no heading\
    @W13%a device looks like the printer, and is the disk file%cards\
    %- PRINTR2 in 40-46:\n\n     FPRINT   O   F      60            PRINTR2\
    %- PRINTER, and DISK for the disk file:\n\n     FPRINT   O   F      60            PRINTER\n     FOUT     O   F      60            DISK\
    %write PRINTER. Each other device is the disk file, whose lines have no spaces or skips;\na program has one printer and one disk file\
    @W14%one of two input files ends the job, and records of the other are left out%cards\
    %- E in 17 of one file alone; where no field has a match level, of the primary file:\n\n     FMEMBERS IPE F      80            DISK40\n     FDUESPD  IS  F      80            DISK40\
    %- E on both files or on neither; where no field has a match level, on the secondary file alone:\n\n     FMEMBERS IPE F      80            DISK40\n     FDUESPD  ISE F      80            DISK40\
    %put E into 17 of both files if the job is to read both to their end. With E on one of\nthem the other is read up to its first record with a greater match value than the last one of that\nfile. Without match levels the primary file comes first, and the job ends with it\
    @W15%L in column 39 has no L card, or an L card has no L in column 39%cards\
    %- L on the F card of the printer, and no L card; or an L card beside this F card:\n\n     FPRINT   O   F     120     OF     PRINTER\n     LPRINT   033FL030OL\
    %- both, or neither:\n\n     FPRINT   O   F     120     OF    LPRINTER\n     LPRINT   033FL030OL\
    %look for the L card, or write L into 39. Without an L card a page has 66 lines, and\noverflow is at line 60; an L card counts, whatever 39 has";

pub(crate) const HALTS: &str = "\
    halt 1%a calculation divides by zero%\
    %- DIV by a field that is 0\
    %- a COMP of the divisor with 0 before, and the DIV under its indicator\
    %look at the field in factor 2 of each DIV that is executed; the line has the cycle, and\nrpg2 run with --source SRC the card\
    @halt 2%an index is outside its table or array%\
    %- AR,X where X is 0 or more than the entries of AR, in a calculation or on an output line\
    %- an X from 1 to the entries\
    %see where X is set; rpg2 run with --source SRC shows the card that has AR,X. On a\nline it is looked up when the line is output, which for a detail line is in the cycle after\nits record\
    @halt 3%the record fits no record type%\
    %- where all record types have codes, a record that no type's codes fit, such as a blank line\
    %- a last record type without codes takes every record\
    %look at that record in its file: the message has its number. Or add a record type\nwithout codes and without lines\
    @halt 4%a numeric field holds a character that isn't a digit%\
    %- in the columns of a number: \"5O0\" (a letter O in the middle), \"-120\", \"1.50\"\n- a MOVE of such a text to a number\
    %- \"12 5\" is 1205 and \"35 \" is 350: blanks are zeros\n- the last column may have a letter for the sign: } and J to R are minus 0 to 9, { and A to I\n  plus 0 to 9. So \"50O\" is valid too, and is -506\
    %look at the columns of numbers in the record; rpg2 run with --source\nSRC shows their name and their card. A number has no point, no comma and no minus sign: decimals\nare the input card's, so 1.50 with 2 decimals is 150\
    @halt 5%the cycle has used up its allowance of backward branches and calls%\
    %- a GOTO back to a label before it that is executed more than 1,000 times in a cycle\
    %- as many backward GOTOs and EXSRs in a cycle as the allowance permits\
    %see what ends the loop, whose card rpg2 run with --source SRC shows, or compile with\na greater --allowance, at most 65535\
    @halt 6%a halt indicator is on%\
    %- SETON of H1, a resulting indicator H1, a record type that turns on H1\
    %- indicators 01 to 99\
    %the program asked for it: its cards say at which record it turns H1 to H9 on. The\nhalt comes after the lines of that record\
    @halt 7%the record is too long, or a byte of it isn't a character%\
    %- a record that is longer than the record length on the F card\n- a byte outside blank to ~, such as a tab or a letter with an accent\
    %- a shorter record: it is padded with blanks\n- a line feed, or carriage return and line feed, after each record\
    %the message names the column, the byte and the command that fixes it, if there is one.\ndocs/OLD_PROGRAMS.md shows how to convert EBCDIC\
    @halt 8%the record's match value is lower than the last one of its file%\
    %- a record with match fields whose value is lower than that of the record before it in its\n  file, as B1 and then A1 by a match field of columns 1 to 2\
    %- both files sorted by their match fields, equal values side by side\
    %sort the file by its match fields, M9 before M8 and so on, in the order that\ndocs/format/MACHINE.md has for characters. The message has both match values, each from M9 down to\nM1, and the number of the record that the lower one comes after";

pub(crate) const RULES: &str = "\
    V1%there is an overflow indicator, but no printer%rows\
    %- overflow indicator OA, and printer length 0\
    %- overflow indicator OA, and printer length 1\
    @V2%a line is for a file that the program doesn't have%rows\
    %- a line for the disk file, where the disk length is 0\
    %- a line for the printer\
    @V3%a record type has a code at a position outside the record%rows\
    %- a code at position 81, or at 0\
    %- a code at position 80\
    @V4%a record type turns on an indicator other than 01 to 99, L1 to L9, LR and H1 to H9%rows\
    %- a record type that turns on OA, or L0\
    %- 1 to 99, L1 to L9, LR, H1 to H9, or none\
    @V5%a control field isn't columns of the record, or the fields of its level together have more than 256 columns, or not as many as in the first type that has it%rows\
    %- a control field in columns 80 to 81; L1 in columns 1 to 4, where an earlier type has L1 in\n  columns 1 to 5\
    %- L1 in columns 2 to 6 there\
    @V6%an input field isn't columns of the record, or isn't for a plain field of the same length%rows\
    %- columns 1 to 5 into field 1, which has 6 digits\
    %- columns 1 to 6 into field 1\
    @V7%an indicator of an input field can't be set, or a text has one for plus or minus%rows\
    %- field 2, a text, with an indicator for plus\
    %- field 2 with an indicator for blanks; field 1 with all three\
    @V8%a line spaces more than 3 lines or skips past the page's last line, or spaces or skips on the disk file%rows\
    %- space before 4; on a page of 66 lines skip before 67; a line for the disk file that spaces\
    %- space before 3; skip before 66\
    @V9%an alternative is conditioned by MR%rows\
    %- in a program of version 1, an alternative that asks MR\
    %- an alternative that asks H9; in versions 2 and 3, one that asks MR\
    @V10%what a line outputs isn't there or has a bad index, or PAGE isn't a plain number of 4 digits without decimals%rows\
    %- field 3, an array, without an index; field 9, which is not there; PAGE of field 1\
    %- entry 5 of field 3; field 4, whose current entry is output\
    @V11%what is edited isn't a number that the code fits, or a fill isn't allowed there%rows\
    %- field 2, a text, by code 1; field 5 by code Y; a fill beside code X\
    %- field 1 by code 1, or by code Y\
    @V12%an edit word isn't a text constant of 1 to 24 characters that fits the number%rows\
    %- field 5, of 1 digit, by the word of field 7, which has 5 places\
    %- a number of 5 digits by that word\
    @V13%a field's text ends outside the line, or is longer than what is before its end%rows\
    %- field 2, of 10 characters, that ends at place 9, or at 61\
    %- field 2 that ends at place 10, or at 60\
    @V14%blank after is given for a field that may not be written%rows\
    %- field 8, the date, with blank after\
    %- field 1 with blank after\
    @V15%a field is conditioned by MR%rows\
    %- in a program of version 1, a field that is output where MR is on\
    %- a field that is output where H9 is on; in versions 2 and 3, one where MR is on\
    @V16%an operand isn't there, or has a bad index or none that it needs%rows\
    %- ADD with field 9, which is not there; ADD with field 3, an array, without an index; entry 6 of\n  field 3\
    %- ADD with entry 5 of field 3\
    @V17%an operand isn't of a kind that the operation takes%rows\
    %- ADD of field 2, a text, to field 1; COMP of field 1 with field 2\
    %- ADD of field 5 to field 1; MOVE of field 2 to field 1\
    @V18%a result may not be written%rows\
    %- ADD with result 8, the date\
    %- ADD with result 1\
    @V19%an indicator is missing, or isn't allowed there%rows\
    %- SETON of L0, or of nothing; LOKUP in field 6 with HI; LOKUP with HI and LO\
    %- SETON of LR; LOKUP in field 4, which is ascending, with HI\
    @V20%the result of LOKUP isn't a table with enough entries, or factor 2's index can't hold the number of its entries%rows\
    %- LOKUP in field 4, of 20 entries, with result 6, of 3\
    %- LOKUP in field 6 with result 4\
    @V21%a branch leads out of its section%rows\
    %- in detail calculations of 3 instructions, JUMP to 4\
    %- JUMP to 3, their end; in a subroutine, to its RET\
    @V22%a call leads to no subroutine, or to one whose level isn't above the caller's%rows\
    %- in a subroutine of level 1, CALL of one of level 1, or of one that is not there\
    %- in a subroutine of level 1, CALL of one of level 2\
    @V23%a subroutine doesn't end in its own RET, or a RET is somewhere else%rows\
    %- a subroutine whose last instruction is MOVE, or which has none; RET in detail calculations\
    %- a subroutine whose last instruction is its own RET\
    @V24%a subroutine's level isn't 1 to 100%rows\
    %- a subroutine of level 0, or 101\
    %- a level from 1 to 100\
    @V25%a record type is of a secondary file that the program doesn't have%rows\
    %- a record type of the secondary file, where its length is 0\
    %- a record type of the primary file\
    @V26%a match field isn't columns of the record, or two are of one level, or a type's levels have other lengths than in the first type that has match fields, or more than 256 columns in all%rows\
    %- a match field in columns 80 to 81; two of M1 in one type; M1 in columns 1 to 4, where an\n  earlier type has M1 in columns 1 to 5\
    %- M1 in columns 2 to 6 there; a type without match fields";

pub(crate) const BYTES: &str = "\
    B1%the first six bytes aren't RPGOBJ, or are missing%\
    %- a source in place of an object; an empty file\
    %- 52 50 47 4f 42 4a\
    %see whether SRC and OBJ, or OBJ and INPUT, were confused\
    @B2%the version isn't 1, 2 or 3%\
    %- 00 04 after the name\
    %- 00 01; 00 02 for a program with a secondary file or match fields; 00 03 for one with a page of\n  its own, or with a file that ends the job alone\
    @B3%a number doesn't lie wholly inside the bytes%\
    %- an object of 157 bytes that was cut to 100: B3 at 100\
    %- all tables whole\
    @B4%bytes are left over after the last table%\
    %- an object of 157 bytes with a line feed after it: B4 at 157\
    %- nothing after the last table\
    @B5%a value isn't among those that are allowed%\
    %- operation 20; a record length of 0; a page of 2 lines; a first value that is written with a blank\
    %- operations 1 to 19; record lengths 1 to 9,999; pages of 3 to 112 lines\
    @B6%a number that isn't used is not 0%\
    %- a factor 1 beside Z-ADD\
    %- 0 in each number that a row does not use\
    @B7%a count, or the instructions or the storage in all, is past its limit%\
    %- 4,001 fields; 8,193 instructions in all; the field with which the first values have more than\n  65,535 bytes\
    %- 4,000 fields; 8,192 instructions";

pub(crate) const REWRITINGS: &str = "\
    A1%directives for the listing and DEBUG become comments%\
    %     I/EJECT\n     C   01                DEBUG\
    %     I*EJECT\n     C*  01                DEBUG\
    %nothing. The lines of DEBUG aren't printed\
    @A2%columns that stand for nothing are blanked%\
    %     FINPUT   IP  F  80                READ40 SYS005S                R\
    %     FINPUT   IP  F  80  80            READ40\
    %nothing. The columns are 32 (a digit), 47-53 and 67-70 of F, 15, 37, 41 and 48 of H, 42\nof I, 16 of O if it has a digit, and all after 80. If 24-27 of a printer or a card device are blank,\na record is a block. Table data with entries after column 80 are put on more cards. Rejected are 32\nbeside keys, letters in 67-69, and signs and translation (40 and 43 of H)\
    @A3%conditions on external switches are decided%\
    %     C   U1      TOT       ADD  AMT       TOT\n     O                NU1      TOT       20\
    %     C   L0      TOT       ADD  AMT       TOT\n     O                NL0      TOT       20\
    %give the switches with --switches, here 10000000, and make a deck for each setting that\nthe job was run with. A card that turns a switch on is rejected, and so is an input file that is off\
    @A4%blank columns of an L card are filled%\
    %     FPRINT   O   F     132     OF    LPRINTER\n     LPRINT\
    %     FPRINT   O   F     132     OF    LPRINTER\n     LPRINT   066FL060OL\
    %see whether the old form had other lines. L cards are read since this version: those\nthat have both numbers stay as they are, and --forms has no effect\
    @A5%the records of a table file become data%\
    %     FRATES   IT  F      20           EDISK\n     E    RATES           TABK    2   4  2   TABV    3 1\
    %     E                    TABK    2   4  2   TABV    3 1\n**\nAA010AB020\nBA030\
    %give the file with --table RATES=FILE, and compile again when it changes. Rejected are more\nrecords than entries, fewer for a table in ascending sequence, entries of more than 80 columns, and\ntables that are written at the end\
    @A6%a record type with OR becomes several%\
    %     IIN      AA  01   1 CA\n     I       OR   02   1 CB\n     I                                        1   2 DIV   L1\n     I                                        3   82AMT       01\n     I                                        3   8 NAM       02\
    %     IIN      AA  01   1 CA\n     I                                        1   2 DIV   L1\n     I                                        3   82AMT\n     I        AA  02   1 CB\n     I                                        1   2 DIV   L1\n     I                                        3   8 NAM\
    %look at fields with a relation (63-64) that no alternative has, and at a level that has\nfields with a relation and without one: these are rejected\
    @A7%the order of record types is tested by calculations%\
    %     IIN      011 01   1 CA\n     I        02NO02   1 CB\
    %     IIN      NA  01   1 CA\n     I        NB  02   1 CB\n     C   02                SETON                     H9\n     C   02      SEQ#      COMP 1                        99\n     C   02 99             SETOF                     H9\n     C   02      SEQ#      COMP 2                        99\n     C   02 99             SETOF                     H9\n     C   01                Z-ADD1         SEQ#    20\n     C   02                Z-ADD2         SEQ#    20\
    %nothing. A record out of order is halt 6 after its lines, by H9 here. Rejected are types\nwhose indicator isn't theirs alone\
    @A8%the one page counter PAGE1 to PAGE7 becomes PAGE%\
    %     O                         PAGE1     40\
    %     O                         PAGE      40\
    %if a deck has two of them, make one a field of your own with ADD\
    @A9%a line whose alternatives space in several ways becomes several%\
    %     OOUT     D  1     01 30\n     O       OR  3     L1\n     O                         DIV       10\n     O                         AMT   J   30\
    %     OOUT     D  1     01 30\n     O                         DIV       10\n     O                         AMT   J   30\n     OOUT     D  3     L1N01\n     O       OR        L1 01N30\n     O                         DIV       10\n     O                         AMT   J   30\
    %if an earlier alternative tests overflow, write the lines yourself\
    @A10%figurative constants become constants%\
    %     C   L1                MOVE *BLANKS   NAM\n     C           NAM       COMP *BLANK                   20\n     C           AMT       COMP *ZERO                21\
    %     C   L1                MOVE '      '  NAM\n     C           NAM       COMP ' '                      20\n     C           AMT       COMP 0                    21\
    %look for a name that nothing defines, and for *BLANK beside a number\
    @A11%MOVEA becomes moves of entries%\
    %     C                     MOVEANAM       CH\
    %     C                     MOVELNAM       MV#1    1\n     C                     MOVE MV#1      CH,1\n     C                     MOVELNAM       MV#2    2\n     C                     MOVE MV#2      CH,2\
    %write a loop, if an entry is named by a field, has another length, or is cut\
    @A12%arrays on input cards are filled by calculations%\
    %     IINPUT   AA  01\n     I                                       20  312AR\
    %     IINPUT   AA  01\n     I                                       20  232I#\n     I                                       24  272I#1\n     I                                       28  312I#2\n     C   01                Z-ADDI#        AR,1\n     C   01                Z-ADDI#1       AR,2\n     C   01                Z-ADDI#2       AR,3\
    %give the record type an indicator of its own. For packed and binary fields use rpg2 records\nfirst\
    @A13%calculations with whole arrays become one for each entry%\
    %     C           AR        ADD  AMT       AR\
    %     C           AR,1      ADD  AMT       AR,1\n     C           AR,2      ADD  AMT       AR,2\n     C           AR,3      ADD  AMT       AR,3\
    %from 31 entries on the rule makes a loop: if it runs often, give --allowance a greater\nnumber. An entry as a factor of the whole of its array is rejected\
    @A14%whole arrays on output cards become a field for each entry%\
    %     O                         AR    J   60\
    %     O                         AR,1  J   42\n     O                         AR,2  J   51\n     O                         AR,3  J   60\
    %look at the end of the array (40-43): its first entry has to begin in column 1 or later, and\nno earlier field may be between its entries\
    @A15%*PLACE becomes the fields above the first one once more%\
    %     O                         DIV       10\n     O                         *PLACE    20\n     O                         *PLACE    30\
    %     O                         DIV       10\n     O                         DIV       20\n     O                         DIV       30\
    %print PAGE after *PLACE, if it comes first. Rejected are a field below *PLACE, and\nan end that leaves the copies no room\
    @A16%PAGE under conditions is set back by calculations%\
    %     O                 L1      PAGE      60\
    %     C   L1                Z-ADD0         PAGE\n     O                         PAGE      60\
    %print PAGE in one line alone, or set it back by a calculation of your own\
    @A17%a number under an edit word with more places gets as many digits%\
    %     O                         AMT       30 ' ,   ,  0.  -'\
    %     C                     Z-ADDAMT       W#      92\n     O                         W#        30 ' ,   ,  0.  -'\
    %if the line may be printed before any calculation, or blanks the field, give the field the\nplaces of its word\
    @A18%a $ that floats in an edit word becomes that of an edit code%\
    %     O                         AMT       30 ' ,  $0.  -'\
    %     O                         AMT   J   30 '$'\
    %choose another word, if no edit code has its commas\
    @A19%lines that fetch overflow are printed by EXCPT%\
    %     O        TF31     L0\n     O                                   20 'FIRST'\
    %     CL0                   SETOF                     99\n     CL0 L0 OF             SETON                     99\n     CL0 99                EXCPT\n     CL0 99                SETOF                     OF99\n     CL0                   SETON                     98\n     CL0                   EXCPT\n     CL0                   SETOF                     98\n     OOUT     E 31     98 L0\n     O                                   20 'FIRST'\
    %ask for the overflow indicator on overflow lines alone, and write no other lines of time E\
    @A20%UDAY, UMONTH and UYEAR are moved out of UDATE%\
    %     O                         UYEAR     20\
    %     C                     MOVE UDATE     UYEAR   20\n     O                         UYEAR     20\
    %give --date as month, day, year. Lines that may be printed before any calculation are\nrejected\
    @A21%several disk files become one%\
    %     FONE     O   F      20            DISK\n     FTWO     O   F      30            DISK\n     OTWO     D        01\n     O                         AMT       30\
    %     FONE     O   F      31            DISK\n     OONE     D        01\n     O                                    1 'B'\n     O                         AMT       31\
    %split the file: `grep '^B' FILE | cut -c2-31` prints the records of TWO\
    @A22%cards of job control are taken out%\
    %     OPRINT   D  1     01\n     O                         AMT       30\n/&\
    %     OPRINT   D  1     01\n     O                         AMT       30\
    %nothing. They begin with //, /& or * $$. What follows the card /* is read by nobody\
    @A23%printers by other names are PRINTER, and each of several has a deck of its own%\
    %     FLIST    O   F     132     OF     PRINTER\n     FERRORS  O   F     132     OG     PRINTR2\n     OLIST    D  1     01\n     O                         AMT       30\n     OERRORS  D  1     01 30\n     O                         AMT       40\
    %     FLIST    O   F     132     OF     PRINTER\n     OLIST    D  1     01\n     O                         AMT       30\
    %give --printer LIST, then --printer ERRORS, and run both decks. If the lines of the\nother printer count pages or blank fields for others, it becomes a disk file, whose records are\nthrown away. Rejected is a card that asks for the other printer's overflow indicator\
    @A24%E in 17 stays, and is alike on files that are merged%\
    %     FDATE    IP  F      80            READ40\n     FMASTER  ISE F      80            TAPE\
    %     FDATE    IP  F      80            READ40\n     FMASTER  ISE F      80            TAPE\
    %nothing: E in 17 of one file ends the job. Rejected are several secondary files of which\nonly some have it, since A25 makes one file of them\
    @A25%three or more input files become two, the secondary ones merged%\
    %     FONHAND  IP  F      80            READ40\n     FISSUES  IS  F      80            DISK\n     FRECPTS  IS  F      80            DISK\n     IONHAND  AA  01   1 CH\n     I                                        2   6 ITEM    M1\n     IISSUES  BB  02   1 CI\n     I                                        2   6 ITEM    M1\n     IRECPTS  CC  03\n     I                                        2   6 ITEM    M1\
    %     FONHAND  IP  F      80            READ40\n     FISSUES  IS  F      81            DISK\n     IONHAND  AA  01   1 CH\n     I                                        2   6 ITEM    M1\n     IISSUES  BB  02   2 CI   1 CA\n     I                                        3   7 ITEM    M1\n     IISSUES  CC  03   1 CB\n     I                                        3   7 ITEM    M1\
    %merge the files: `rpg2 records --merge OLD.rpg OUT ISSUES=FILE RECPTS=FILE` takes the least\nmatch value first, as the old job did, and puts a letter in front of each record. Packed fields are\nunpacked first, by rpg2 records --by. Rejected are a sequence by number and look ahead in these\nfiles, and files that are written too\
    @A26%look ahead fields are read after each record%\
    %     FCARDS   IP  F      80            READ40\n     ICARDS   AA  01   1 CA\n     I                                        2   6 ITEM\n     I        ZZ  **\n     I                                        2   6 NEXT\
    %     FCARDS   IP  F      85            READ40\n     ICARDS   AA  01   1 CA\n     I                                        2   6 ITEM\n     I                                       81  85 NEXT\
    %put the columns there: `rpg2 records IN OUT --ahead 2-6 --length 80`. After the last record\nthey are nines. Rejected are arrays, fields that other types read too, packed fields, and beside\nanother input file a field that is used where no record of this one need be\
    @A27%a combined file, or one that is updated in place, is read, and a new one written%\
    %     FCARDS   CP  F      80            MFCU1\n     ICARDS   AA  01   1 CA\n     I                                        2   60AMT\n     OCARDS   D        01 30\n     O                         AMT       40\
    %     FCARDS   IP  F      80            MFCU1\n     FNEW     O   F      80            DISK\n     ICARDS   AA  01   1 CA\n     I                                        2   60AMT\n     I                                        1  80 REC#\n     ONEW     D        01 30\n     O                         REC#      80\n     O                         AMT       40\n     ONEW     D        01N30\n     O                         REC#      80\
    %read the new file in place of the old one afterwards. Where the job halts, it ends with\nthe last record written. Lines of which two may change one record become one. Rejected are keys,\nnew records, total lines for the file, cards that turn on LR, and another file that may end the job\nbefore its last record (E in 17)\
    @A28%codes by zone or digit become codes of characters%\
    %     IIN      AA  01   1 ZS\n     I                                        2   6 NAM\n     I        BB  02   1NZS\
    %     IIN      AA  01   1 CS\n     I                                        2   6 NAM\n     ..\n     I        AA  01   1 C\\\n     I                                        2   6 NAM\n     I        BB  02   1NCS   1NCT   1NCU\n     I       AND       1NCV   1NCW   1NCX\n     I       AND       1NCY   1NCZ   1NC\\\
    %nothing. A zone has 9 to 11 characters, and rule A6 makes a type of each. Rejected are\nthe zones of signs, and more than 100 alternatives\
    @A29%the subfields of a data structure are read, or its whole is put together%\
    %     IIN      AA  01   1 CA\n     I                                        2   70DATE\n     I            DS\n     I                                        1   60DATE\n     I                                        1   20MONTH\
    %     IIN      AA  01   1 CA\n     I                                        2   70DATE\n     I                                        2   30MONTH\
    %nothing. If several fields fill the structure, calculations move them to its whole at the\nstart of detail. Rejected are UDS, arrays, and fields of it that calculations change\
    @A30%SQRT becomes a loop%\
    %     C                     SQRT N         R       80\
    %     C                     SETOF                     99\n     C                     SETON                     99\n     C  N99                GOTO ROOT#\n     C           N         MULT 4         SQ#     60\n     ..\n     C           ROOT#     TAG\
    %give --allowance a greater number, if the loop runs often. A negative number is halt\n1. Rejected are whole arrays, resulting indicators, and numbers of too many digits";
