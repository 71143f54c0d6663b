//! The features of RPG II that aren't supported: what it is, after a `|` the workaround if there is one, and below it where the feature
//! appears. After a `!` the columns that it is about come first: it is reported by itself then, not by what the rejected columns hold, and
//! `{}` in it is the text in these columns.
//!
//! A place is the letter of a card, the first and last column that may be rejected, and patterns of the text from the first rejected column
//! on, one of which fits; without a pattern any text does. Cards: `/` any, `H`, `F`, `E`, `T` record types, `I` input fields, `C`, `O` lines, `A` AND
//! and OR cards of lines, `D` output fields, `?` another form type. The first feature that fits is printed.

/// The features, with a line for each sentence and each place.
pub(crate) const FEATURES: &str =
    "/TITLE isn't read|put * in column 7, and the card is a comment (rpg2 fit rewrites it: A1)
 / 07-07 /TITLE
/EJECT isn't read|put * in column 7, and the card is a comment (rpg2 fit rewrites it: A1)
 / 07-07 /EJECT
/SPACE isn't read|put * in column 7, and the card is a comment (rpg2 fit rewrites it: A1)
 / 07-07 /SPACE
/COPY isn't read|put the cards that it names in its place
 / 07-07 /COPY
telecommunications cards (T) aren't read
 ? 06-06 T&
!06-06 a D card is RPG IV, which rpg2 doesn't read: it reads RPG II
 ? 06-06 D
!06-06 a P card is RPG IV, which rpg2 doesn't read: it reads RPG II
 ? 06-06 P
!06-06 auto report cards (U) aren't read|write the calculations and lines out that it makes: LANGUAGE.md, \"O, a line\"
 ? 06-06 U
DEBUG isn't supported|blank column 15 (rpg2 fit rewrites it: A2)
 H 15-15
inverted print isn't supported|blank column 21; edit codes put commas before the decimal point
 H 21-21
another order of characters isn't supported|blank column 26
 H 26-26
inquiry isn't supported|blank column 37, nothing depends on it (rpg2 fit rewrites it: A2)
 H 37-37 I B
signs of another machine aren't supported|blank column 40, and convert the records beforehand
 H 40-40
file translation isn't supported|blank column 43, and convert the records beforehand
 H 43-43
shared areas aren't supported|blank column 48, nothing depends on them (rpg2 fit rewrites it: A2)
 H 48-48
forms alignment isn't supported|blank column 41, a file needs none (rpg2 fit rewrites it: A2)
 H 41-41
!40-46 WORKSTN is a display: rpg2 runs batch jobs
 F 15-15 .........................WORKSTN
!40-46 {} is no file: rpg2 runs batch jobs
 F 15-15 .........................CRT_ .........................KEYBORD .........................CONSOLE
 F 15-15 .........................SPECIAL
update files aren't supported|write a new master to the disk file (rpg2 fit rewrites it: A27)
 F 15-15 U
combined files aren't supported|write the records to the disk file (rpg2 fit rewrites it: A27)
 F 15-15 C
display files aren't supported|put parameters in a first record of its own type (docs/OLD_PROGRAMS.md)
 F 15-15 D
files read by key or on demand aren't supported|sort the file, make it the primary file, and match the transactions as the secondary file (docs/OLD_PROGRAMS.md)
 F 16-16 C D
record address files aren't supported|sort the records beforehand (docs/OLD_PROGRAMS.md)
 F 16-16 R
table files that are read at the start aren't supported|put the entries after a ** card (rpg2 fit rewrites it: A5)
 F 16-16 T
descending sequence isn't supported|sort the records in ascending order
 F 18-18 D
records of varying length aren't supported|write F, and make lines of the records with rpg2 records --rdw (docs/OLD_PROGRAMS.md)
 F 19-19 V
the record length is required here; 20-23 has the block length (rpg2 fit copies it for a printer or a card device: A2)
 F 24-27 ____
the number of areas isn't read|blank column 32, nothing depends on it (rpg2 fit rewrites it: A2)
 F 32-32 #
keys and record addresses aren't supported|sort the records beforehand (docs/OLD_PROGRAMS.md)
 F 28-32
 F 35-38
E isn't read|blank column 39, a deck with tables needs none
 F 39-39 E
symbolic devices and labels aren't read|blank 47-53, nothing depends on them (rpg2 fit rewrites it: A2)
 F 47-53
exits aren't supported|no program outside the deck is called
 F 54-59
the core index isn't read|blank 60-65, nothing depends on it
 F 60-65
adding records to an existing file isn't supported|write a new file (docs/OLD_PROGRAMS.md)
 F 66-66 A
 O 16-16 ADD
extents aren't read|blank 67-69, nothing depends on them (rpg2 fit rewrites it: A2)
 F 67-69
the unit isn't read|blank column 70, nothing depends on it (rpg2 fit rewrites it: A2)
 F 70-70
external switches (U1 to U8) aren't supported|turn indicators on with a first record that has its own type (rpg2 fit --switches decides conditions on them: A3)
 F 71-72 U#
 T 19-20 U#
 C 09-17 .U#
 C 54-59 U#
 O 23-31 .U#
 A 23-31 .U#
 D 23-31 .U#
tables that are read from a file at the start aren't supported|put the entries after a ** card (rpg2 fit rewrites it: A5)
 E 11-18
tables that are written to a file at the end aren't supported|write the entries with output lines
 E 19-26
packed and binary entries aren't read|write their digits
 E 43-43 P B
 E 55-55 P B
descending sequence isn't supported|write the entries in ascending order
 E 45-45 D
 E 57-57 D
OR among record types isn't supported|write a record type for each, and repeat the fields (rpg2 fit rewrites it: A6)
 T 07-14 _______OR
!19-20 data structures (DS) aren't supported|read the whole and its parts as fields of the record: columns may be read twice (rpg2 fit rewrites it: A29)
 T 15-16 ____DS
 I 19-19 DS
the local data area isn't supported|give its values on a first record (docs/OLD_PROGRAMS.md)
 I 18-18 UDS
sequence by number isn't supported|write two letters; the order of the types isn't checked then (rpg2 fit rewrites it: A7)
 T 15-16 ##
sequence by number isn't supported|blank column 17
 T 17-17 1 N
sequence by number isn't supported|blank column 18
 T 18-18 O
look ahead isn't supported|rpg2 records --ahead puts columns of the next record after each (rpg2 fit rewrites it: A26)
 T 19-20 **
spread cards aren't supported|write each part in a record of its own
 T 19-20 TR
codes by zone aren't supported|write C, and a record type for each character (rpg2 fit rewrites it: A28)
 T 21-41 .....Z
codes by digit aren't supported|write C, and a record type for each character (rpg2 fit rewrites it: A28)
 T 21-41 .....D
stacker select isn't supported|blank this column (rpg2 fit rewrites it: A2)
 T 42-42
 O 16-16 #
packed and binary fields aren't read|rpg2 records --by unpacks them (docs/OLD_PROGRAMS.md)
 I 43-43 P B
input fields don't fill array entries|read a field, and move it by Z-ADD or MOVE in the calculations (rpg2 fit rewrites it: A12)
 I 53-58 &, &., &.., &...,
chaining fields aren't supported|match the files (docs/OLD_PROGRAMS.md)
 I 61-62 C#
field record relation isn't supported|repeat the fields under each record type (rpg2 fit rewrites it: A6)
 I 63-64
sterling fields aren't supported
 I 71-74
command keys (KA to KZ) aren't supported|put parameters in a first record of its own type (docs/OLD_PROGRAMS.md)
 C 09-17 .K&
 O 23-31 .K&
 A 23-31 .K&
 D 23-31 .K&
!26-35 {} in columns 26-35 is RPG IV, which rpg2 doesn't read: an operation belongs in 28-32
 C 18-27 ________EVAL_ ________MONITOR_ ________CALLP_ ________DOW_ ________IF_ ________ELSE_ ________ENDIF_
 C 18-27 ________ENDDO_ ________SELECT_ ________WHEN_
figurative constants aren't supported|MOVE a text of blanks as long as the result, as '   ' (rpg2 fit rewrites it: A10)
 C 18-42 *BLANK
figurative constants aren't supported|write 0, or a text of zeros (rpg2 fit rewrites it: A10)
 C 18-42 *ZERO
this operation isn't supported|sort the master, make it the primary file, and match the transactions as the secondary file (docs/OLD_PROGRAMS.md)
 C 28-32 CHAIN READ_ SETLL
this operation isn't supported|match values decide which file comes next
 C 28-32 FORCE
this operation isn't supported|put parameters in a first record of its own type (docs/OLD_PROGRAMS.md)
 C 28-32 DSPLY KEY__ SET__
this operation isn't supported|loop over the array with an index (rpg2 fit rewrites it: A11)
 C 28-32 MOVEA
this operation isn't supported|loop over the array with an index (docs/OLD_PROGRAMS.md)
 C 28-32 SORTA
this operation isn't supported|use Newton's method in a loop (rpg2 fit rewrites it: A30)
 C 28-32 SQRT_
this operation isn't supported, and nothing takes its place|rewrite what depends on zones (docs/OLD_PROGRAMS.md)
 C 28-32 TESTZ TESTN MHHZO MHLZO MLHZO MLLZO
this operation isn't supported|keep a field of one digit, or an indicator, for each bit
 C 28-32 BITON BITOF TESTB
this operation isn't supported|a report doesn't depend on the time of its run; UDATE is the date
 C 28-32 TIME_
this operation isn't supported|put * in column 7, and print values with exception lines (E) (rpg2 fit rewrites it: A1)
 C 28-32 DEBUG
this operation isn't supported|no program outside the deck is called
 C 28-32 EXIT_ RLABL ULABL
this operation isn't supported|use COMP, and GOTO or EXSR under its indicators
 C 28-32 IF&&_ DO___ DOU&& DOW&& CAS&& CAS__ ELSE_ END__
fetch overflow isn't supported|blank column 16; the overflow lines then come after the total lines (rpg2 fit rewrites it: A19)
 O 16-16 F
deleting records isn't supported|write a new file without them (docs/OLD_PROGRAMS.md)
 O 16-16 DEL
a line has no name|EXCPT prints all lines of type E, so distinguish them by indicators; fields stand on cards of their own
 O 32-37
fetch overflow isn't supported|blank column 16; the overflow lines then come after the total lines
 A 16-16 F
an AND or OR card can't have spaces or skips of its own|write two lines (rpg2 fit rewrites OR cards: A9)
 A 17-22
*PLACE isn't supported|write the fields once more, with their ends (rpg2 fit rewrites it: A15)
 D 32-37 *PLACE
*PRINT isn't supported|write the lines for the printer too
 D 32-37 *PRINT
an end position is required|the field's last column in the line
 D 40-43 ____
end positions count from the start of the line, without a sign|a number that ends in column 43
 D 40-43 + .+ ..+
packed and binary fields aren't written|rpg2 records --deck moves their digits behind the record, and --to packs them
 D 44-44 P B";
