//! Symbol files made by ca65 and ld65 of Debian's cc65, and rows in the forms of other assemblers' manuals.

use symbol_files::{Found, Refused, Symbols};

/// `ld65 -Ln`, as it was written for a program of three labels, two local ones of one name, and a variable.
static VICE: &str = "al 018000 .far_away
al 008021 .@loop
al 00801E .helper
al 008007 .@loop
al 008000 .reset
al 7E2000 .buffer
";

/// Lines of the debug file of the same program.
static DEBUG: &str = "version\tmajor=2,minor=0
info\tcsym=0,file=2,lib=0,line=37,mod=1,scope=2,seg=9,span=34,sym=11,type=6
file\tid=0,name=\"t.s\",size=576,mtime=0x6B0C5956,mod=0
seg\tid=0,name=\"CODE\",start=0x008000,size=0x002C,addrsize=absolute,type=ro,oname=\"t.sfc\",ooffs=0
sym\tid=0,name=\"far_away\",addrsize=absolute,size=3,scope=0,def=36,ref=8,val=0x18000,seg=8,type=lab
sym\tid=9,name=\"score\",addrsize=zeropage,size=2,scope=0,def=34,ref=17,val=0x0,seg=4,type=lab
sym\tid=10,name=\"SCREEN_ON\",addrsize=zeropage,scope=0,def=22,val=0xF,type=equ
";

/// As asar and WLA-DX write it.
static SECTIONS: &str = "; wla symbolic information file
[labels]
00:8000 reset
7e:0010 score

[definitions]
0000000f SCREEN_ON
[source files]
0000 b2ed7e39 main.asm
";

/// The three plain forms.
static PLAIN: &str = "008000 reset\n$7e0010 score\nhelper = $00801e\n";

#[test]
fn finds_addresses(rt: HostRuntime) -> Result<(), Refused> {
    let alloc = rt.alloc();
    let rows = [
        (VICE, "helper", Found::One(0x801E)),
        (VICE, "buffer", Found::One(0x7E_2000)),
        (VICE, "@loop", Found::Several),
        (VICE, "SCREEN_ON", Found::Nothing),
        (DEBUG, "far_away", Found::One(0x01_8000)),
        (DEBUG, "SCREEN_ON", Found::One(15)),
        (SECTIONS, "score", Found::One(0x7E_0010)),
        (SECTIONS, "SCREEN_ON", Found::One(15)),
        (PLAIN, "reset", Found::One(0x8000)),
        (PLAIN, "score", Found::One(0x7E_0010)),
        (PLAIN, "helper", Found::One(0x801E)),
    ];
    for (text, name, want) in rows {
        let symbols = Symbols::read(alloc, text)?;
        assert_eq!(rt; symbols.find(name), want, "{name}");
    }
    Ok(())
}

#[test]
fn finds_names(rt: HostRuntime) -> Result<(), Refused> {
    let alloc = rt.alloc();
    let symbols = Symbols::read(alloc, VICE)?;
    let rows = [
        (0x8000, "reset", "reset", 0),
        (0x8006, "", "reset", 6),
        (0x801E, "helper", "helper", 0),
        (0x7E_2001, "", "buffer", 1),
    ];
    for (address, name, nearest, offset) in rows {
        assert_eq!(rt;
            symbols.name_of(address).unwrap_or(""),
            name,
            "at {address}"
        );
        match symbols.nearest(address) {
            Some((name, distance)) => {
                assert_eq!(rt; name, nearest, "before {address}");
                assert_eq!(rt; distance, offset, "before {address}");
            }
            None => assert!(rt; false, "nothing before {address}"),
        }
    }
    assert!(rt; symbols.nearest(0x7FFF).is_none());
    assert!(rt; symbols.nearest(0x02_8000).is_none());
    Ok(())
}

#[test]
fn refuses(rt: HostRuntime) {
    let alloc = rt.alloc();
    let rows = [
        ("", Refused::Empty),
        ("; nothing\n\n", Refused::Empty),
        ("hello\n", Refused::Unknown(1)),
        (
            "\n[labels]\n00:8000 a\n0:12345 b\n",
            Refused::Line(4, "a symbol file of WLA-DX (00:8000 name)"),
        ),
        (
            "al 008000 .a\nal 1000000 .b\n",
            Refused::Line(2, "VICE labels (al 008000 .name)"),
        ),
        (
            "version\tmajor=3,minor=0\n",
            Refused::Line(1, "a debug file of ld65"),
        ),
        (
            "8000 a\na b c\n",
            Refused::Line(2, "a list of symbols (008000 name, or name = $008000)"),
        ),
    ];
    for (text, want) in rows {
        match Symbols::read(alloc, text) {
            Ok(_) => assert!(rt; false, "{text} is taken"),
            Err(refused) => assert_eq!(rt; refused, want, "{text}"),
        }
    }
}
