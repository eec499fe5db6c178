use crate::Step;
use handles::TableRefusal;
use handles_calls::{Answer, Call};

/// Calls on a table of 16 slots, with the Rust's answers and the sums of its slots; a clear begins each list.
pub const STEPS: [Step; 244] = [
    Step {
        call: Call::Clear,
        answer: Answer::Cleared,
        slots: 12869504823371907088,
    },
    Step {
        call: Call::Insert {
            hash: 8545612743296265528,
            place: 13,
        },
        answer: Answer::Inserted(Ok(())),
        slots: 8938493460875279591,
    },
    Step {
        call: Call::Insert {
            hash: 2234503779988902190,
            place: 7,
        },
        answer: Answer::Inserted(Ok(())),
        slots: 5594930204115603663,
    },
    Step {
        call: Call::Remove {
            hash: 5035527837718780190,
            place: 18,
        },
        answer: Answer::Removed(false),
        slots: 5594930204115603663,
    },
    Step {
        call: Call::Insert {
            hash: 5412414089056017602,
            place: 28,
        },
        answer: Answer::Inserted(Ok(())),
        slots: 3626586847831336224,
    },
    Step {
        call: Call::Read {
            hash: 8545612743296265528,
        },
        answer: Answer::Read(14),
        slots: 3626586847831336224,
    },
    Step {
        call: Call::Insert {
            hash: 7594907851737592193,
            place: 17,
        },
        answer: Answer::Inserted(Ok(())),
        slots: 5508192253825984328,
    },
    Step {
        call: Call::Read {
            hash: 3472301621981248107,
        },
        answer: Answer::Read(0),
        slots: 5508192253825984328,
    },
    Step {
        call: Call::Read {
            hash: 14972675413259276904,
        },
        answer: Answer::Read(0),
        slots: 5508192253825984328,
    },
    Step {
        call: Call::Insert {
            hash: 4503972067089435382,
            place: 18,
        },
        answer: Answer::Inserted(Ok(())),
        slots: 16697087740698909916,
    },
    Step {
        call: Call::Read {
            hash: 8388022135663063644,
        },
        answer: Answer::Read(0),
        slots: 16697087740698909916,
    },
    Step {
        call: Call::Insert {
            hash: 5851682280269573406,
            place: 16,
        },
        answer: Answer::Inserted(Ok(())),
        slots: 16696805995161432091,
    },
    Step {
        call: Call::Insert {
            hash: 5412414089056017602,
            place: 28,
        },
        answer: Answer::Inserted(Ok(())),
        slots: 7652125183220931564,
    },
    Step {
        call: Call::Insert {
            hash: 16156681998299943627,
            place: 1,
        },
        answer: Answer::Inserted(Ok(())),
        slots: 3791110175149560141,
    },
    Step {
        call: Call::Insert {
            hash: 13680974640548089321,
            place: 2,
        },
        answer: Answer::Inserted(Ok(())),
        slots: 3884332510651027730,
    },
    Step {
        call: Call::Insert {
            hash: 15068574219553359898,
            place: 31,
        },
        answer: Answer::Inserted(Ok(())),
        slots: 5135311402458882528,
    },
    Step {
        call: Call::Insert {
            hash: 3472301621981248107,
            place: 23,
        },
        answer: Answer::Inserted(Ok(())),
        slots: 7844374623095243399,
    },
    Step {
        call: Call::Insert {
            hash: 16156681998299943627,
            place: 1,
        },
        answer: Answer::Inserted(Ok(())),
        slots: 2186578415682516712,
    },
    Step {
        call: Call::Read {
            hash: 18195566028874657202,
        },
        answer: Answer::Read(0),
        slots: 2186578415682516712,
    },
    Step {
        call: Call::Remove {
            hash: 7630827807213564228,
            place: 22,
        },
        answer: Answer::Removed(false),
        slots: 2186578415682516712,
    },
    Step {
        call: Call::Remove {
            hash: 7630827807213564228,
            place: 22,
        },
        answer: Answer::Removed(false),
        slots: 2186578415682516712,
    },
    Step {
        call: Call::Remove {
            hash: 13680974640548089321,
            place: 2,
        },
        answer: Answer::Removed(true),
        slots: 2093356080181049123,
    },
    Step {
        call: Call::Remove {
            hash: 13680974640548089321,
            place: 2,
        },
        answer: Answer::Removed(false),
        slots: 2093356080181049123,
    },
    Step {
        call: Call::Read {
            hash: 5752091116780108514,
        },
        answer: Answer::Read(0),
        slots: 2093356080181049123,
    },
    Step {
        call: Call::Read {
            hash: 4090307255588489310,
        },
        answer: Answer::Read(0),
        slots: 2093356080181049123,
    },
    Step {
        call: Call::Remove {
            hash: 14972675413259276904,
            place: 5,
        },
        answer: Answer::Removed(false),
        slots: 2093356080181049123,
    },
    Step {
        call: Call::Read {
            hash: 16156681998299943627,
        },
        answer: Answer::Read(131200),
        slots: 2093356080181049123,
    },
    Step {
        call: Call::Remove {
            hash: 8441011068576916262,
            place: 20,
        },
        answer: Answer::Removed(false),
        slots: 2093356080181049123,
    },
    Step {
        call: Call::Remove {
            hash: 10718418894842616076,
            place: 6,
        },
        answer: Answer::Removed(false),
        slots: 2093356080181049123,
    },
    Step {
        call: Call::Read {
            hash: 7545286725355171556,
        },
        answer: Answer::Read(0),
        slots: 2093356080181049123,
    },
    Step {
        call: Call::Remove {
            hash: 14972675413259276904,
            place: 5,
        },
        answer: Answer::Removed(false),
        slots: 2093356080181049123,
    },
    Step {
        call: Call::Read {
            hash: 18195566028874657202,
        },
        answer: Answer::Read(0),
        slots: 2093356080181049123,
    },
    Step {
        call: Call::Remove {
            hash: 5412414089056017602,
            place: 28,
        },
        answer: Answer::Removed(true),
        slots: 11138036892121549650,
    },
    Step {
        call: Call::Read {
            hash: 4090307255588489310,
        },
        answer: Answer::Read(0),
        slots: 11138036892121549650,
    },
    Step {
        call: Call::Insert {
            hash: 16240060288565681153,
            place: 25,
        },
        answer: Answer::Inserted(Ok(())),
        slots: 10874533082465283466,
    },
    Step {
        call: Call::Insert {
            hash: 14303078171742039341,
            place: 8,
        },
        answer: Answer::Inserted(Ok(())),
        slots: 3199061375952037388,
    },
    Step {
        call: Call::Insert {
            hash: 5851682280269573406,
            place: 22,
        },
        answer: Answer::Inserted(Err(TableRefusal::Full { capacity: 12 })),
        slots: 3199061375952037388,
    },
    Step {
        call: Call::Insert {
            hash: 14303078171742039341,
            place: 14,
        },
        answer: Answer::Inserted(Err(TableRefusal::Full { capacity: 12 })),
        slots: 3199061375952037388,
    },
    Step {
        call: Call::Read {
            hash: 5851682280269573406,
        },
        answer: Answer::Read(17),
        slots: 3199061375952037388,
    },
    Step {
        call: Call::Insert {
            hash: 11927310962865888524,
            place: 30,
        },
        answer: Answer::Inserted(Err(TableRefusal::Full { capacity: 12 })),
        slots: 3199061375952037388,
    },
    Step {
        call: Call::Insert {
            hash: 16156681998299943627,
            place: 1,
        },
        answer: Answer::Inserted(Err(TableRefusal::Full { capacity: 12 })),
        slots: 3199061375952037388,
    },
    Step {
        call: Call::Insert {
            hash: 5752091116780108514,
            place: 12,
        },
        answer: Answer::Inserted(Err(TableRefusal::Full { capacity: 12 })),
        slots: 3199061375952037388,
    },
    Step {
        call: Call::Insert {
            hash: 5035527837718780190,
            place: 18,
        },
        answer: Answer::Inserted(Err(TableRefusal::Full { capacity: 12 })),
        slots: 3199061375952037388,
    },
    Step {
        call: Call::Insert {
            hash: 16240060288565681153,
            place: 25,
        },
        answer: Answer::Inserted(Err(TableRefusal::Full { capacity: 12 })),
        slots: 3199061375952037388,
    },
    Step {
        call: Call::Read {
            hash: 16156681998299943627,
        },
        answer: Answer::Read(131200),
        slots: 3199061375952037388,
    },
    Step {
        call: Call::Insert {
            hash: 8465029992811654026,
            place: 10,
        },
        answer: Answer::Inserted(Err(TableRefusal::Full { capacity: 12 })),
        slots: 3199061375952037388,
    },
    Step {
        call: Call::Read {
            hash: 2234503779988902190,
        },
        answer: Answer::Read(8),
        slots: 3199061375952037388,
    },
    Step {
        call: Call::Insert {
            hash: 5035527837718780190,
            place: 16,
        },
        answer: Answer::Inserted(Err(TableRefusal::Full { capacity: 12 })),
        slots: 3199061375952037388,
    },
    Step {
        call: Call::Insert {
            hash: 7594907851737592193,
            place: 17,
        },
        answer: Answer::Inserted(Err(TableRefusal::Full { capacity: 12 })),
        slots: 3199061375952037388,
    },
    Step {
        call: Call::Insert {
            hash: 5752091116780108514,
            place: 12,
        },
        answer: Answer::Inserted(Err(TableRefusal::Full { capacity: 12 })),
        slots: 3199061375952037388,
    },
    Step {
        call: Call::Read {
            hash: 3472301621981248107,
        },
        answer: Answer::Read(24),
        slots: 3199061375952037388,
    },
    Step {
        call: Call::Insert {
            hash: 11927310962865888524,
            place: 9,
        },
        answer: Answer::Inserted(Err(TableRefusal::Full { capacity: 12 })),
        slots: 3199061375952037388,
    },
    Step {
        call: Call::Read {
            hash: 11927310962865888524,
        },
        answer: Answer::Read(0),
        slots: 3199061375952037388,
    },
    Step {
        call: Call::Remove {
            hash: 16539678748073444243,
            place: 29,
        },
        answer: Answer::Removed(false),
        slots: 3199061375952037388,
    },
    Step {
        call: Call::Remove {
            hash: 5752091116780108514,
            place: 12,
        },
        answer: Answer::Removed(false),
        slots: 3199061375952037388,
    },
    Step {
        call: Call::Remove {
            hash: 8441011068576916262,
            place: 20,
        },
        answer: Answer::Removed(false),
        slots: 3199061375952037388,
    },
    Step {
        call: Call::Insert {
            hash: 16539678748073444243,
            place: 29,
        },
        answer: Answer::Inserted(Err(TableRefusal::Full { capacity: 12 })),
        slots: 3199061375952037388,
    },
    Step {
        call: Call::Read {
            hash: 2234503779988902190,
        },
        answer: Answer::Read(8),
        slots: 3199061375952037388,
    },
    Step {
        call: Call::Remove {
            hash: 16294208416658607535,
            place: 0,
        },
        answer: Answer::Removed(false),
        slots: 3199061375952037388,
    },
    Step {
        call: Call::Read {
            hash: 7545286725355171556,
        },
        answer: Answer::Read(0),
        slots: 3199061375952037388,
    },
    Step {
        call: Call::Remove {
            hash: 11927310962865888524,
            place: 30,
        },
        answer: Answer::Removed(false),
        slots: 3199061375952037388,
    },
    Step {
        call: Call::Clear,
        answer: Answer::Cleared,
        slots: 12869504823371907088,
    },
    Step {
        call: Call::Read {
            hash: 16285016252571713536,
        },
        answer: Answer::Read(0),
        slots: 12869504823371907088,
    },
    Step {
        call: Call::Insert {
            hash: 11889503016258109444,
            place: 27,
        },
        answer: Answer::Inserted(Ok(())),
        slots: 6656534256751394822,
    },
    Step {
        call: Call::Insert {
            hash: 5692549928996306948,
            place: 29,
        },
        answer: Answer::Inserted(Ok(())),
        slots: 3632162552737909972,
    },
    Step {
        call: Call::Insert {
            hash: 8358680908399640580,
            place: 3,
        },
        answer: Answer::Inserted(Ok(())),
        slots: 7561371477475701795,
    },
    Step {
        call: Call::Insert {
            hash: 11889503016258109444,
            place: 30,
        },
        answer: Answer::Inserted(Ok(())),
        slots: 17614726200763102748,
    },
    Step {
        call: Call::Insert {
            hash: 7566047373982433283,
            place: 22,
        },
        answer: Answer::Inserted(Ok(())),
        slots: 1639193777270522441,
    },
    Step {
        call: Call::Read {
            hash: 7493989779944505345,
        },
        answer: Answer::Read(0),
        slots: 1639193777270522441,
    },
    Step {
        call: Call::Insert {
            hash: 5404319552844595202,
            place: 28,
        },
        answer: Answer::Inserted(Ok(())),
        slots: 18117594494695806618,
    },
    Step {
        call: Call::Read {
            hash: 7493989779944505345,
        },
        answer: Answer::Read(0),
        slots: 18117594494695806618,
    },
    Step {
        call: Call::Read {
            hash: 10016005571271983106,
        },
        answer: Answer::Read(0),
        slots: 18117594494695806618,
    },
    Step {
        call: Call::Remove {
            hash: 10016005571271983106,
            place: 26,
        },
        answer: Answer::Removed(false),
        slots: 18117594494695806618,
    },
    Step {
        call: Call::Remove {
            hash: 16140901064495857666,
            place: 1,
        },
        answer: Answer::Removed(false),
        slots: 18117594494695806618,
    },
    Step {
        call: Call::Read {
            hash: 8502796096475496451,
        },
        answer: Answer::Read(0),
        slots: 18117594494695806618,
    },
    Step {
        call: Call::Insert {
            hash: 5836665117072162817,
            place: 16,
        },
        answer: Answer::Inserted(Ok(())),
        slots: 10312730510141116889,
    },
    Step {
        call: Call::Insert {
            hash: 13618885273168379905,
            place: 28,
        },
        answer: Answer::Inserted(Ok(())),
        slots: 5866338702225204536,
    },
    Step {
        call: Call::Insert {
            hash: 288230376151711746,
            place: 14,
        },
        answer: Answer::Inserted(Ok(())),
        slots: 2522015524047222018,
    },
    Step {
        call: Call::Read {
            hash: 14915921965851082756,
        },
        answer: Answer::Read(0),
        slots: 2522015524047222018,
    },
    Step {
        call: Call::Insert {
            hash: 10664523917613334529,
            place: 6,
        },
        answer: Answer::Inserted(Ok(())),
        slots: 11008858111341956788,
    },
    Step {
        call: Call::Remove {
            hash: 8430738502437568514,
            place: 20,
        },
        answer: Answer::Removed(false),
        slots: 11008858111341956788,
    },
    Step {
        call: Call::Remove {
            hash: 2233785415175766016,
            place: 7,
        },
        answer: Answer::Removed(false),
        slots: 11008858111341956788,
    },
    Step {
        call: Call::Remove {
            hash: 2233785415175766016,
            place: 5,
        },
        answer: Answer::Removed(false),
        slots: 11008858111341956788,
    },
    Step {
        call: Call::Remove {
            hash: 16501189034685497347,
            place: 29,
        },
        answer: Answer::Removed(false),
        slots: 11008858111341956788,
    },
    Step {
        call: Call::Remove {
            hash: 3458764513820540930,
            place: 23,
        },
        answer: Answer::Removed(false),
        slots: 11008858111341956788,
    },
    Step {
        call: Call::Read {
            hash: 4467570830351532034,
        },
        answer: Answer::Read(0),
        slots: 11008858111341956788,
    },
    Step {
        call: Call::Remove {
            hash: 13618885273168379905,
            place: 30,
        },
        answer: Answer::Removed(false),
        slots: 11008858111341956788,
    },
    Step {
        call: Call::Insert {
            hash: 8430738502437568513,
            place: 10,
        },
        answer: Answer::Inserted(Ok(())),
        slots: 203031610468452425,
    },
    Step {
        call: Call::Remove {
            hash: 11889503016258109444,
            place: 30,
        },
        answer: Answer::Removed(true),
        slots: 15505687962560370768,
    },
    Step {
        call: Call::Read {
            hash: 5980780305148018691,
        },
        answer: Answer::Read(0),
        slots: 15505687962560370768,
    },
    Step {
        call: Call::Read {
            hash: 4467570830351532034,
        },
        answer: Answer::Read(0),
        slots: 15505687962560370768,
    },
    Step {
        call: Call::Read {
            hash: 16501189034685497347,
        },
        answer: Answer::Read(0),
        slots: 15505687962560370768,
    },
    Step {
        call: Call::Insert {
            hash: 288230376151711746,
            place: 14,
        },
        answer: Answer::Inserted(Ok(())),
        slots: 14029147553898317978,
    },
    Step {
        call: Call::Remove {
            hash: 8430738502437568514,
            place: 20,
        },
        answer: Answer::Removed(false),
        slots: 14029147553898317978,
    },
    Step {
        call: Call::Remove {
            hash: 4035225266123964416,
            place: 9,
        },
        answer: Answer::Removed(false),
        slots: 14029147553898317978,
    },
    Step {
        call: Call::Read {
            hash: 16140901064495857666,
        },
        answer: Answer::Read(0),
        slots: 14029147553898317978,
    },
    Step {
        call: Call::Read {
            hash: 16285016252571713536,
        },
        answer: Answer::Read(0),
        slots: 14029147553898317978,
    },
    Step {
        call: Call::Read {
            hash: 4971973988617027584,
        },
        answer: Answer::Read(0),
        slots: 14029147553898317978,
    },
    Step {
        call: Call::Read {
            hash: 10016005571271983106,
        },
        answer: Answer::Read(0),
        slots: 14029147553898317978,
    },
    Step {
        call: Call::Insert {
            hash: 16285016252571713536,
            place: 0,
        },
        answer: Answer::Inserted(Ok(())),
        slots: 2759851164402327416,
    },
    Step {
        call: Call::Insert {
            hash: 4971973988617027584,
            place: 18,
        },
        answer: Answer::Inserted(Err(TableRefusal::Full { capacity: 12 })),
        slots: 2759851164402327416,
    },
    Step {
        call: Call::Insert {
            hash: 16501189034685497347,
            place: 29,
        },
        answer: Answer::Inserted(Err(TableRefusal::Full { capacity: 12 })),
        slots: 2759851164402327416,
    },
    Step {
        call: Call::Insert {
            hash: 8430738502437568513,
            place: 30,
        },
        answer: Answer::Inserted(Err(TableRefusal::Full { capacity: 12 })),
        slots: 2759851164402327416,
    },
    Step {
        call: Call::Read {
            hash: 16212958658533785603,
        },
        answer: Answer::Read(0),
        slots: 2759851164402327416,
    },
    Step {
        call: Call::Read {
            hash: 4971973988617027584,
        },
        answer: Answer::Read(0),
        slots: 2759851164402327416,
    },
    Step {
        call: Call::Read {
            hash: 15204152342002794498,
        },
        answer: Answer::Read(0),
        slots: 2759851164402327416,
    },
    Step {
        call: Call::Read {
            hash: 14267403619509731329,
        },
        answer: Answer::Read(0),
        slots: 2759851164402327416,
    },
    Step {
        call: Call::Read {
            hash: 8502796096475496451,
        },
        answer: Answer::Read(0),
        slots: 2759851164402327416,
    },
    Step {
        call: Call::Read {
            hash: 16285016252571713536,
        },
        answer: Answer::Read(1),
        slots: 2759851164402327416,
    },
    Step {
        call: Call::Insert {
            hash: 7493989779944505345,
            place: 21,
        },
        answer: Answer::Inserted(Err(TableRefusal::Full { capacity: 12 })),
        slots: 2759851164402327416,
    },
    Step {
        call: Call::Insert {
            hash: 10664523917613334529,
            place: 6,
        },
        answer: Answer::Inserted(Err(TableRefusal::Full { capacity: 12 })),
        slots: 2759851164402327416,
    },
    Step {
        call: Call::Insert {
            hash: 5404319552844595202,
            place: 28,
        },
        answer: Answer::Inserted(Err(TableRefusal::Full { capacity: 12 })),
        slots: 2759851164402327416,
    },
    Step {
        call: Call::Remove {
            hash: 8430738502437568514,
            place: 20,
        },
        answer: Answer::Removed(false),
        slots: 2759851164402327416,
    },
    Step {
        call: Call::Read {
            hash: 7566047373982433283,
        },
        answer: Answer::Read(23),
        slots: 2759851164402327416,
    },
    Step {
        call: Call::Read {
            hash: 8430738502437568514,
        },
        answer: Answer::Read(0),
        slots: 2759851164402327416,
    },
    Step {
        call: Call::Read {
            hash: 16501189034685497347,
        },
        answer: Answer::Read(0),
        slots: 2759851164402327416,
    },
    Step {
        call: Call::Read {
            hash: 8358680908399640580,
        },
        answer: Answer::Read(4),
        slots: 2759851164402327416,
    },
    Step {
        call: Call::Insert {
            hash: 10016005571271983106,
            place: 26,
        },
        answer: Answer::Inserted(Err(TableRefusal::Full { capacity: 12 })),
        slots: 2759851164402327416,
    },
    Step {
        call: Call::Remove {
            hash: 10664523917613334529,
            place: 6,
        },
        answer: Answer::Removed(true),
        slots: 5525052165572047814,
    },
    Step {
        call: Call::Remove {
            hash: 3458764513820540930,
            place: 23,
        },
        answer: Answer::Removed(false),
        slots: 5525052165572047814,
    },
    Step {
        call: Call::Remove {
            hash: 5692549928996306948,
            place: 21,
        },
        answer: Answer::Removed(false),
        slots: 5525052165572047814,
    },
    Step {
        call: Call::Remove {
            hash: 14267403619509731329,
            place: 14,
        },
        answer: Answer::Removed(false),
        slots: 5525052165572047814,
    },
    Step {
        call: Call::Clear,
        answer: Answer::Cleared,
        slots: 12869504823371907088,
    },
    Step {
        call: Call::Insert {
            hash: 12321848580486725632,
            place: 28,
        },
        answer: Answer::Inserted(Ok(())),
        slots: 7872450426315098881,
    },
    Step {
        call: Call::Read {
            hash: 12321848580487774208,
        },
        answer: Answer::Read(29),
        slots: 7872450426315098881,
    },
    Step {
        call: Call::Read {
            hash: 12321848580487774208,
        },
        answer: Answer::Read(29),
        slots: 7872450426315098881,
    },
    Step {
        call: Call::Read {
            hash: 12321848580486725632,
        },
        answer: Answer::Read(29),
        slots: 7872450426315098881,
    },
    Step {
        call: Call::Insert {
            hash: 12321848580486725632,
            place: 19,
        },
        answer: Answer::Inserted(Ok(())),
        slots: 4866658350328568937,
    },
    Step {
        call: Call::Insert {
            hash: 12321848580487774208,
            place: 21,
        },
        answer: Answer::Inserted(Ok(())),
        slots: 10385785309593924563,
    },
    Step {
        call: Call::Read {
            hash: 12321848580487774208,
        },
        answer: Answer::Read(124794947231),
        slots: 10385785309593924563,
    },
    Step {
        call: Call::Insert {
            hash: 12321848580486725632,
            place: 17,
        },
        answer: Answer::Inserted(Ok(())),
        slots: 16513648460577175353,
    },
    Step {
        call: Call::Insert {
            hash: 12321848580487774208,
            place: 17,
        },
        answer: Answer::Inserted(Ok(())),
        slots: 14122649126104960159,
    },
    Step {
        call: Call::Remove {
            hash: 12321848580485677056,
            place: 15,
        },
        answer: Answer::Removed(false),
        slots: 14122649126104960159,
    },
    Step {
        call: Call::Read {
            hash: 12321848580487774208,
        },
        answer: Answer::Read(2065633006138583967),
        slots: 14122649126104960159,
    },
    Step {
        call: Call::Remove {
            hash: 12321848580487774208,
            place: 11,
        },
        answer: Answer::Removed(false),
        slots: 14122649126104960159,
    },
    Step {
        call: Call::Insert {
            hash: 12321848580487774208,
            place: 14,
        },
        answer: Answer::Inserted(Ok(())),
        slots: 12145813449346491138,
    },
    Step {
        call: Call::Insert {
            hash: 12321848580485677056,
            place: 9,
        },
        answer: Answer::Inserted(Ok(())),
        slots: 11795148026411384928,
    },
    Step {
        call: Call::Insert {
            hash: 12321848580486725632,
            place: 25,
        },
        answer: Answer::Inserted(Ok(())),
        slots: 11630081369666726862,
    },
    Step {
        call: Call::Remove {
            hash: 12321848580485677056,
            place: 21,
        },
        answer: Answer::Removed(true),
        slots: 12401930755212938212,
    },
    Step {
        call: Call::Read {
            hash: 12321848580487774208,
        },
        answer: Answer::Read(13468490886155002920),
        slots: 12401930755212938212,
    },
    Step {
        call: Call::Remove {
            hash: 12321848580485677056,
            place: 0,
        },
        answer: Answer::Removed(false),
        slots: 12401930755212938212,
    },
    Step {
        call: Call::Insert {
            hash: 12321848580487774208,
            place: 14,
        },
        answer: Answer::Inserted(Ok(())),
        slots: 7870348516802716487,
    },
    Step {
        call: Call::Read {
            hash: 12321848580486725632,
        },
        answer: Answer::Read(12726230563061900775),
        slots: 7870348516802716487,
    },
    Step {
        call: Call::Insert {
            hash: 12321848580485677056,
            place: 14,
        },
        answer: Answer::Inserted(Ok(())),
        slots: 14323855771939060522,
    },
    Step {
        call: Call::Remove {
            hash: 12321848580487774208,
            place: 23,
        },
        answer: Answer::Removed(false),
        slots: 14323855771939060522,
    },
    Step {
        call: Call::Read {
            hash: 12321848580487774208,
        },
        answer: Answer::Read(2148906498161005544),
        slots: 14323855771939060522,
    },
    Step {
        call: Call::Remove {
            hash: 12321848580487774208,
            place: 8,
        },
        answer: Answer::Removed(false),
        slots: 14323855771939060522,
    },
    Step {
        call: Call::Remove {
            hash: 12321848580487774208,
            place: 17,
        },
        answer: Answer::Removed(true),
        slots: 16177709993721680452,
    },
    Step {
        call: Call::Remove {
            hash: 12321848580487774208,
            place: 26,
        },
        answer: Answer::Removed(false),
        slots: 16177709993721680452,
    },
    Step {
        call: Call::Insert {
            hash: 12321848580485677056,
            place: 0,
        },
        answer: Answer::Inserted(Ok(())),
        slots: 8598920446575164185,
    },
    Step {
        call: Call::Remove {
            hash: 12321848580485677056,
            place: 21,
        },
        answer: Answer::Removed(false),
        slots: 8598920446575164185,
    },
    Step {
        call: Call::Insert {
            hash: 12321848580485677056,
            place: 0,
        },
        answer: Answer::Inserted(Ok(())),
        slots: 15740314857294118254,
    },
    Step {
        call: Call::Read {
            hash: 12321848580486725632,
        },
        answer: Answer::Read(13447326739216787652),
        slots: 15740314857294118254,
    },
    Step {
        call: Call::Read {
            hash: 12321848580486725632,
        },
        answer: Answer::Read(13447326739216787652),
        slots: 15740314857294118254,
    },
    Step {
        call: Call::Read {
            hash: 12321848580486725632,
        },
        answer: Answer::Read(13447326739216787652),
        slots: 15740314857294118254,
    },
    Step {
        call: Call::Remove {
            hash: 12321848580486725632,
            place: 28,
        },
        answer: Answer::Removed(true),
        slots: 4751792265664500989,
    },
    Step {
        call: Call::Read {
            hash: 12321848580487774208,
        },
        answer: Answer::Read(11273190284731410337),
        slots: 4751792265664500989,
    },
    Step {
        call: Call::Insert {
            hash: 12321848580486725632,
            place: 22,
        },
        answer: Answer::Inserted(Ok(())),
        slots: 13822577148905461096,
    },
    Step {
        call: Call::Insert {
            hash: 12321848580487774208,
            place: 7,
        },
        answer: Answer::Inserted(Ok(())),
        slots: 2694211091721457604,
    },
    Step {
        call: Call::Insert {
            hash: 12321848580485677056,
            place: 3,
        },
        answer: Answer::Inserted(Ok(())),
        slots: 16738252901943852828,
    },
    Step {
        call: Call::Insert {
            hash: 12321848580485677056,
            place: 30,
        },
        answer: Answer::Inserted(Err(TableRefusal::Full { capacity: 12 })),
        slots: 16738252901943852828,
    },
    Step {
        call: Call::Read {
            hash: 12321848580486725632,
        },
        answer: Answer::Read(18326270626642593714),
        slots: 16738252901943852828,
    },
    Step {
        call: Call::Read {
            hash: 12321848580486725632,
        },
        answer: Answer::Read(18326270626642593714),
        slots: 16738252901943852828,
    },
    Step {
        call: Call::Insert {
            hash: 12321848580487774208,
            place: 14,
        },
        answer: Answer::Inserted(Err(TableRefusal::Full { capacity: 12 })),
        slots: 16738252901943852828,
    },
    Step {
        call: Call::Insert {
            hash: 12321848580487774208,
            place: 17,
        },
        answer: Answer::Inserted(Err(TableRefusal::Full { capacity: 12 })),
        slots: 16738252901943852828,
    },
    Step {
        call: Call::Insert {
            hash: 12321848580486725632,
            place: 13,
        },
        answer: Answer::Inserted(Err(TableRefusal::Full { capacity: 12 })),
        slots: 16738252901943852828,
    },
    Step {
        call: Call::Insert {
            hash: 12321848580487774208,
            place: 20,
        },
        answer: Answer::Inserted(Err(TableRefusal::Full { capacity: 12 })),
        slots: 16738252901943852828,
    },
    Step {
        call: Call::Read {
            hash: 12321848580486725632,
        },
        answer: Answer::Read(18326270626642593714),
        slots: 16738252901943852828,
    },
    Step {
        call: Call::Read {
            hash: 12321848580485677056,
        },
        answer: Answer::Read(18326270626642593714),
        slots: 16738252901943852828,
    },
    Step {
        call: Call::Remove {
            hash: 12321848580487774208,
            place: 23,
        },
        answer: Answer::Removed(false),
        slots: 16738252901943852828,
    },
    Step {
        call: Call::Insert {
            hash: 12321848580485677056,
            place: 3,
        },
        answer: Answer::Inserted(Err(TableRefusal::Full { capacity: 12 })),
        slots: 16738252901943852828,
    },
    Step {
        call: Call::Read {
            hash: 12321848580486725632,
        },
        answer: Answer::Read(18326270626642593714),
        slots: 16738252901943852828,
    },
    Step {
        call: Call::Remove {
            hash: 12321848580485677056,
            place: 18,
        },
        answer: Answer::Removed(false),
        slots: 16738252901943852828,
    },
    Step {
        call: Call::Insert {
            hash: 12321848580487774208,
            place: 14,
        },
        answer: Answer::Inserted(Err(TableRefusal::Full { capacity: 12 })),
        slots: 16738252901943852828,
    },
    Step {
        call: Call::Read {
            hash: 12321848580487774208,
        },
        answer: Answer::Read(18326270626642593714),
        slots: 16738252901943852828,
    },
    Step {
        call: Call::Insert {
            hash: 12321848580485677056,
            place: 27,
        },
        answer: Answer::Inserted(Err(TableRefusal::Full { capacity: 12 })),
        slots: 16738252901943852828,
    },
    Step {
        call: Call::Insert {
            hash: 12321848580486725632,
            place: 28,
        },
        answer: Answer::Inserted(Err(TableRefusal::Full { capacity: 12 })),
        slots: 16738252901943852828,
    },
    Step {
        call: Call::Remove {
            hash: 12321848580485677056,
            place: 0,
        },
        answer: Answer::Removed(true),
        slots: 6738761459217824199,
    },
    Step {
        call: Call::Remove {
            hash: 12321848580487774208,
            place: 8,
        },
        answer: Answer::Removed(false),
        slots: 6738761459217824199,
    },
    Step {
        call: Call::Remove {
            hash: 12321848580485677056,
            place: 6,
        },
        answer: Answer::Removed(false),
        slots: 6738761459217824199,
    },
    Step {
        call: Call::Read {
            hash: 12321848580486725632,
        },
        answer: Answer::Read(2742306040391302707),
        slots: 6738761459217824199,
    },
    Step {
        call: Call::Insert {
            hash: 12321848580486725632,
            place: 4,
        },
        answer: Answer::Inserted(Ok(())),
        slots: 2177276676405815072,
    },
    Step {
        call: Call::Remove {
            hash: 12321848580487774208,
            place: 8,
        },
        answer: Answer::Removed(false),
        slots: 2177276676405815072,
    },
    Step {
        call: Call::Clear,
        answer: Answer::Cleared,
        slots: 12869504823371907088,
    },
    Step {
        call: Call::Insert {
            hash: 216172782113783822,
            place: 9,
        },
        answer: Answer::Inserted(Ok(())),
        slots: 9518037525047418390,
    },
    Step {
        call: Call::Insert {
            hash: 72057594037927948,
            place: 29,
        },
        answer: Answer::Inserted(Ok(())),
        slots: 8567409209312113842,
    },
    Step {
        call: Call::Insert {
            hash: 216172782113783823,
            place: 27,
        },
        answer: Answer::Inserted(Ok(())),
        slots: 8567127463752725962,
    },
    Step {
        call: Call::Insert {
            hash: 12,
            place: 23,
        },
        answer: Answer::Inserted(Ok(())),
        slots: 4881121374072995361,
    },
    Step {
        call: Call::Insert {
            hash: 72057594037927950,
            place: 2,
        },
        answer: Answer::Inserted(Ok(())),
        slots: 7252509462971173026,
    },
    Step {
        call: Call::Remove {
            hash: 72057594037927950,
            place: 17,
        },
        answer: Answer::Removed(false),
        slots: 7252509462971173026,
    },
    Step {
        call: Call::Read { hash: 12 },
        answer: Answer::Read(24),
        slots: 7252509462971173026,
    },
    Step {
        call: Call::Insert {
            hash: 72057594037927949,
            place: 16,
        },
        answer: Answer::Inserted(Ok(())),
        slots: 12392281158782190897,
    },
    Step {
        call: Call::Insert {
            hash: 216172782113783822,
            place: 4,
        },
        answer: Answer::Inserted(Ok(())),
        slots: 10955164101656946482,
    },
    Step {
        call: Call::Insert {
            hash: 72057594037927950,
            place: 17,
        },
        answer: Answer::Inserted(Ok(())),
        slots: 1689230850105919170,
    },
    Step {
        call: Call::Insert { hash: 13, place: 5 },
        answer: Answer::Inserted(Ok(())),
        slots: 15576300843471185927,
    },
    Step {
        call: Call::Insert { hash: 15, place: 6 },
        answer: Answer::Inserted(Ok(())),
        slots: 15304100475532346445,
    },
    Step {
        call: Call::Read {
            hash: 72057594037927949,
        },
        answer: Answer::Read(17),
        slots: 15304100475532346445,
    },
    Step {
        call: Call::Remove {
            hash: 144115188075855886,
            place: 8,
        },
        answer: Answer::Removed(false),
        slots: 15304100475532346445,
    },
    Step {
        call: Call::Remove {
            hash: 72057594037927949,
            place: 16,
        },
        answer: Answer::Removed(true),
        slots: 7324006399038137790,
    },
    Step {
        call: Call::Insert {
            hash: 72057594037927949,
            place: 31,
        },
        answer: Answer::Inserted(Ok(())),
        slots: 15303818140690778460,
    },
    Step {
        call: Call::Insert {
            hash: 72057594037927949,
            place: 20,
        },
        answer: Answer::Inserted(Ok(())),
        slots: 6820570520142126447,
    },
    Step {
        call: Call::Remove {
            hash: 216172782113783822,
            place: 4,
        },
        answer: Answer::Removed(true),
        slots: 14746428473702339438,
    },
    Step {
        call: Call::Remove {
            hash: 216172782113783820,
            place: 24,
        },
        answer: Answer::Removed(false),
        slots: 14746428473702339438,
    },
    Step {
        call: Call::Remove {
            hash: 72057594037927949,
            place: 20,
        },
        answer: Answer::Removed(true),
        slots: 449803054852796123,
    },
    Step {
        call: Call::Remove {
            hash: 72057594037927950,
            place: 2,
        },
        answer: Answer::Removed(true),
        slots: 556795133935469658,
    },
    Step {
        call: Call::Read {
            hash: 144115188075855886,
        },
        answer: Answer::Read(0),
        slots: 556795133935469658,
    },
    Step {
        call: Call::Insert {
            hash: 144115188075855886,
            place: 8,
        },
        answer: Answer::Inserted(Ok(())),
        slots: 1079102945269475104,
    },
    Step {
        call: Call::Remove {
            hash: 72057594037927950,
            place: 17,
        },
        answer: Answer::Removed(true),
        slots: 14405548526133512848,
    },
    Step {
        call: Call::Read { hash: 15 },
        answer: Answer::Read(7),
        slots: 14405548526133512848,
    },
    Step {
        call: Call::Read {
            hash: 216172782113783822,
        },
        answer: Answer::Read(10),
        slots: 14405548526133512848,
    },
    Step {
        call: Call::Remove { hash: 13, place: 9 },
        answer: Answer::Removed(false),
        slots: 14405548526133512848,
    },
    Step {
        call: Call::Remove {
            hash: 144115188075855887,
            place: 13,
        },
        answer: Answer::Removed(false),
        slots: 14405548526133512848,
    },
    Step {
        call: Call::Read {
            hash: 72057594037927950,
        },
        answer: Answer::Read(0),
        slots: 14405548526133512848,
    },
    Step {
        call: Call::Remove {
            hash: 72057594037927949,
            place: 10,
        },
        answer: Answer::Removed(false),
        slots: 14405548526133512848,
    },
    Step {
        call: Call::Remove {
            hash: 216172782113783821,
            place: 7,
        },
        answer: Answer::Removed(false),
        slots: 14405548526133512848,
    },
    Step {
        call: Call::Insert {
            hash: 144115188075855887,
            place: 24,
        },
        answer: Answer::Inserted(Ok(())),
        slots: 647276708100033894,
    },
    Step {
        call: Call::Remove {
            hash: 72057594037927949,
            place: 31,
        },
        answer: Answer::Removed(true),
        slots: 17883440502900900808,
    },
    Step {
        call: Call::Remove {
            hash: 216172782113783821,
            place: 7,
        },
        answer: Answer::Removed(false),
        slots: 17883440502900900808,
    },
    Step {
        call: Call::Read { hash: 15 },
        answer: Answer::Read(7),
        slots: 17883440502900900808,
    },
    Step {
        call: Call::Read { hash: 15 },
        answer: Answer::Read(7),
        slots: 17883440502900900808,
    },
    Step {
        call: Call::Read {
            hash: 72057594037927949,
        },
        answer: Answer::Read(0),
        slots: 17883440502900900808,
    },
    Step {
        call: Call::Insert {
            hash: 13,
            place: 15,
        },
        answer: Answer::Inserted(Ok(())),
        slots: 647276708099968279,
    },
    Step {
        call: Call::Insert { hash: 15, place: 6 },
        answer: Answer::Inserted(Ok(())),
        slots: 375076340161128797,
    },
    Step {
        call: Call::Read {
            hash: 216172782113783823,
        },
        answer: Answer::Read(28),
        slots: 375076340161128797,
    },
    Step {
        call: Call::Insert { hash: 12, place: 1 },
        answer: Answer::Inserted(Ok(())),
        slots: 13184458628898366494,
    },
    Step {
        call: Call::Read {
            hash: 72057594037927948,
        },
        answer: Answer::Read(30),
        slots: 13184458628898366494,
    },
    Step {
        call: Call::Read {
            hash: 144115188075855884,
        },
        answer: Answer::Read(0),
        slots: 13184458628898366494,
    },
    Step {
        call: Call::Insert { hash: 15, place: 3 },
        answer: Answer::Inserted(Ok(())),
        slots: 12415083718853169249,
    },
    Step {
        call: Call::Read {
            hash: 72057594037927950,
        },
        answer: Answer::Read(0),
        slots: 12415083718853169249,
    },
    Step {
        call: Call::Remove {
            hash: 216172782113783822,
            place: 19,
        },
        answer: Answer::Removed(false),
        slots: 12415083718853169249,
    },
    Step {
        call: Call::Read {
            hash: 144115188075855886,
        },
        answer: Answer::Read(9),
        slots: 12415083718853169249,
    },
    Step {
        call: Call::Insert {
            hash: 216172782113783820,
            place: 24,
        },
        answer: Answer::Inserted(Err(TableRefusal::Full { capacity: 12 })),
        slots: 12415083718853169249,
    },
    Step {
        call: Call::Insert {
            hash: 216172782113783821,
            place: 12,
        },
        answer: Answer::Inserted(Err(TableRefusal::Full { capacity: 12 })),
        slots: 12415083718853169249,
    },
    Step {
        call: Call::Read {
            hash: 144115188075855887,
        },
        answer: Answer::Read(25),
        slots: 12415083718853169249,
    },
    Step {
        call: Call::Read {
            hash: 216172782113783822,
        },
        answer: Answer::Read(10),
        slots: 12415083718853169249,
    },
    Step {
        call: Call::Remove {
            hash: 15,
            place: 21,
        },
        answer: Answer::Removed(false),
        slots: 12415083718853169249,
    },
    Step {
        call: Call::Read { hash: 15 },
        answer: Answer::Read(30123060804),
        slots: 12415083718853169249,
    },
    Step {
        call: Call::Remove {
            hash: 13,
            place: 12,
        },
        answer: Answer::Removed(false),
        slots: 12415083718853169249,
    },
    Step {
        call: Call::Remove {
            hash: 72057594037927951,
            place: 30,
        },
        answer: Answer::Removed(false),
        slots: 12415083718853169249,
    },
    Step {
        call: Call::Remove {
            hash: 72057594037927949,
            place: 18,
        },
        answer: Answer::Removed(false),
        slots: 12415083718853169249,
    },
    Step {
        call: Call::Remove {
            hash: 72057594037927950,
            place: 19,
        },
        answer: Answer::Removed(false),
        slots: 12415083718853169249,
    },
    Step {
        call: Call::Read {
            hash: 72057594037927951,
        },
        answer: Answer::Read(0),
        slots: 12415083718853169249,
    },
    Step {
        call: Call::Remove {
            hash: 72057594037927949,
            place: 20,
        },
        answer: Answer::Removed(false),
        slots: 12415083718853169249,
    },
    Step {
        call: Call::Remove {
            hash: 72057594037927949,
            place: 18,
        },
        answer: Answer::Removed(false),
        slots: 12415083718853169249,
    },
];
