//! What is read of an input, and what is written for it.
ghost use Rattle.dup_transcript.specs.Beginnings.{BeginningsGoOn};
ghost use Rattle.dup_transcript.specs.CommandTable.{EachIsRead};
ghost use Rattle.dup_transcript.specs.MachinePlays.{
  CommandsLeaveReady,
  PlaysAreOne,
  PlaysExist,
  PlaysTellKept,
  SettlesLeaveNothing,
  StartsReady,
};
ghost use Rattle.dup_transcript.specs.OnlyTable.{OnlyTheTable, OthersAreBad};
ghost use Rattle.dup_transcript.specs.Numbers.{NumbersAreDecimal};
ghost use Rattle.dup_transcript.specs.ScriptRuns.{TranscriptsAreRuns};
ghost use Rattle.dup_transcript.specs.Transcript.{OtherTasksHaveOne, TranscriptsAreOne, TranscriptsExist, TranscriptsTellKept};
ghost use Rattle.dup_transcript.specs.WrittenLines.{LinesAreFound, LinesAreRead};

/// Lines that are written one after another are the lines that are read, and those of the text.
pub fn lines_law()
    ensures read { LinesAreRead }
    ensures found { LinesAreFound }
{}

/// The numbers that words write are those whose decimal texts they are.
pub fn numbers_law()
    ensures { NumbersAreDecimal }
{}

/// What each form of line commands, that every other line is bad, and that no bad line is in the table.
pub fn commands_law()
    ensures each { EachIsRead }
    ensures others { OnlyTheTable }
    ensures bad { OthersAreBad }
{}

/// Each input has a transcript, and one for each choice of the pages that are kept; what is written tells
/// the choice. `check` and `render` keep none, and have one.
pub fn transcripts_law()
    ensures exist { TranscriptsExist }
    ensures one { TranscriptsAreOne }
    ensures told { TranscriptsTellKept }
    ensures others { OtherTasksHaveOne }
{}

/// What is written for the first lines of an input is the front of a transcript of all of it.
pub fn beginnings_law()
    ensures { BeginningsGoOn }
{}

/// What is written for a script is what the machine replies to events, and of their run the headline holds.
pub fn runs_of_scripts_law()
    ensures { TranscriptsAreRuns }
{}

/// The machine answers each list of commands, and in one way for each choice of the pages that are kept; the
/// answers tell the choice. No work is open between two commands, and once settled, nothing is pending.
pub fn plays_law()
    ensures exist { PlaysExist }
    ensures one { PlaysAreOne }
    ensures told { PlaysTellKept }
    ensures starts { StartsReady }
    ensures ready { CommandsLeaveReady }
    ensures settled { SettlesLeaveNothing }
{}
