// All that the documents promise beside what the contracts of the entries say: theorems on the rules, each a clause of one
// contract. docs/CLAIMS.md says which sentence of the papers each clause carries.
#![tactic(auto)]

ghost use Rattle.std.specs.Prelude.{ℕ};
ghost use Rattle.rounding.specs.Laws.{WholeLaws};
ghost use Rattle.rounding.specs.Sheet.{SheetWhole, Edges};
ghost use Rattle.rotation.specs.Laws.{RotationLaws};
ghost use Rattle.rotation.specs.Sheet.{SheetKnobs};
ghost use Rattle.sides.specs.Laws.{SideLaws, PairLaws};
ghost use Rattle.modes.specs.declared.ModeSet.{ModeSet};
ghost use Rattle.modes.specs.Laws.{ModeLaws};
ghost use Rattle.codes.specs.Laws.{CodeLaws};
ghost use Rattle.codes.specs.Poster.{PosterLaws};
ghost use Rattle.feed.specs.Wholes.{ReadingLaws, ReadingExamples, PutLaws};
ghost use Rattle.channels.specs.declared.Channel.{Channel};
ghost use Rattle.channels.specs.Laws.{ReferenceLaws, KnobLaws, EntryLaws, EntryExamples, TurnLaws, ChannelLaws};
ghost use Rattle.bench.specs.Laws.{CountLaws, ActingLaws};
ghost use Rattle.bench.specs.Starts.{StartLaws};
ghost use Rattle.frames.specs.Laws.{FrameLaws, FrameExamples};
ghost use Rattle.rules.specs.Laws.{StaysLaws};
ghost use Rattle.soundness.specs.Kept.{KeepsSound, LawsInRange};
ghost use Rattle.soundness.specs.Lowest.{NamesLowest};
ghost use Rattle.soundness.specs.Feed.{FeedLaws};
ghost use Rattle.claim.specs.Claim.{Claims};
ghost use Rattle.claim.specs.Reached.{Reached};
ghost use Rattle.claim.specs.Independent.{IndependentLaws};
ghost use Rattle.claim.specs.Sheet.{Sheet};
ghost use Rattle.guidance.specs.Picker.{PickLaws};
ghost use Rattle.replay.specs.Made.{MadeWhole};
ghost use Rattle.replay.specs.Flights.{GuidesFrom};
ghost use Rattle.words.specs.Laws.{WordLaws, Example};
ghost use Rattle.numerals.specs.Laws.{ValueLaws};
ghost use Rattle.numerals.specs.Examples.{Numbers, Pairs, Integers, Values};
ghost use Rattle.scripts.specs.Lines.{Lines};
ghost use Rattle.scripts.specs.Tables.{TableLaws};
ghost use Rattle.scripts.specs.Laws.{LineLaws};
ghost use Rattle.sessions.specs.Laws.{SessionLaws};
ghost use Rattle.promises.specs.Sends.{SameAsSent};

pub fn promises_hold()
    // the claim over lists by the rules alone, from any start, from any sound bench and from an unsound one; that it is not
    // empty; that every list can be made; and the bench sheet
    ensures claims { Claims }
    ensures reached { Reached }
    ensures made_whole { MadeWhole }
    ensures bench_sheet { Sheet }

    // what turns independent operation on, what can't, and what ends it
    ensures independent_laws { IndependentLaws }

    // the picker names laws that can be flown from any sound bench too, and tells what the display tells
    ensures guides_from { GuidesFrom }
    ensures pick_laws { PickLaws }

    // sound benches stay sound, sets show laws in range, and an event word stands for its lowest bit
    ensures keeps_sound { KeepsSound }
    ensures laws_in_range { (s : ModeSet) → LawsInRange s }
    ensures names_lowest { (w : ℕ) → NamesLowest w }

    // 107 coherent sets, changes that keep coherence, events and their numbers
    ensures mode_laws { ModeLaws }

    // the parts of a bench: what is put in a side's, a reference's, a reading's or a count's place is read there, and the
    // others stay
    ensures side_laws { SideLaws }
    ensures pair_laws { PairLaws Channel }
    ensures reference_laws { ReferenceLaws }
    ensures knob_laws { KnobLaws }
    ensures put_laws { PutLaws }
    ensures count_laws { CountLaws }

    // which parts an accepted call can change
    ensures stays_laws { StaysLaws }

    // which sides act, and that a rule is made on those; whatever it reads, a side's rule keeps its channel sound; the wheel
    // and the altitude knob go by the vertical law that is shown
    ensures acting_laws { ActingLaws }
    ensures channel_laws { ChannelLaws }
    ensures turn_laws { TurnLaws }

    // which starting speeds are accepted, what an accepted and a refused start give, and that the reading is exactly the speed
    ensures start_laws { StartLaws }

    // a reading's whole value is its nearest integer, but for heading 360 and roll 180, is what it is accepted by, and is
    // kept beside it on a sound bench; an accepted reading stores both, and nothing else changes either; so entry from what
    // is kept is entry from the rounded reading, of which a roll's is worked out
    ensures reading_laws { ReadingLaws }
    ensures reading_examples { ReadingExamples }
    ensures feed_laws { FeedLaws }
    ensures entry_laws { EntryLaws }
    ensures entry_examples { EntryExamples }

    // set codes and the list of all coherent sets; frames: what is written is read back, from one frame, as a send would
    // copy it
    ensures code_laws { CodeLaws }
    ensures poster_laws { PosterLaws }
    ensures frame_laws { FrameLaws }
    ensures frame_examples { FrameExamples }
    ensures same_as_sent { SameAsSent }

    // the leaves
    ensures whole_laws { WholeLaws }
    ensures whole_sheet { SheetWhole }
    ensures whole_edges { Edges }
    ensures rotation_laws { RotationLaws }
    ensures rotation_sheet { SheetKnobs }

    // the words, numbers and lines of scripts; a script's bytes leave the bench and the bus area that its lines ask for
    ensures word_laws { WordLaws }
    ensures word_example { Example }
    ensures number_examples { Numbers }
    ensures pair_examples { Pairs }
    ensures integer_examples { Integers }
    ensures value_examples { Values }
    ensures value_laws { ValueLaws }
    ensures script_lines { Lines }
    ensures table_laws { TableLaws }
    ensures line_laws { LineLaws }
    ensures session_laws { SessionLaws }
{}
