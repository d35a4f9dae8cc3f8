// The generator tables as nested constants, as they are printed.
ghost use Rattle.std.specs.Prelude.{◌≡◌};
ghost use Rattle.rules.specs.Tables.{generator16, generator32, generator64, generator511};
ghost use Rattle.identity.specs.printed.Words.{table_words};

// Table 2-1 of document 001, M = 16.
const GENERATOR16: [[u64; 4]; 4] = [
    [0x0E69, 0x166B, 0xEF4C, 0x0BC2],
    [0x7766, 0x137E, 0xBB24, 0x8418],
    [0xC480, 0xFEB9, 0xCD53, 0xA713],
    [0x4EAA, 0x22FA, 0x465E, 0xEA11],
];

// Table 2-2 of document 001, M = 32.
const GENERATOR32: [[u64; 4]; 4] = [
    [0x73F5E839, 0x0220CE51, 0x36ED68E9, 0xF39EB162],
    [0xBAC812C0, 0xBCD24379, 0x4786D928, 0x5A09095C],
    [0x7DF83F76, 0xA5FF4C38, 0x8E6C0D4E, 0x025EB712],
    [0xBAA37B32, 0x60CB31C5, 0xD0F66A31, 0xFAF511BC],
];

// Table 2-3 of document 001, M = 64.
const GENERATOR64: [[u64; 4]; 4] = [
    [
        0x1D21794A22761FAE,
        0x59945014257E130D,
        0x74D6054003794014,
        0x2DADEB9CA25EF12E,
    ],
    [
        0x60E0B6623C5CE512,
        0x4D2C81ECC7F469AB,
        0x20678DBFB7523ECE,
        0x2B54B906A9DBE98C,
    ],
    [
        0xF6739BCF54273E77,
        0x167BDA120C6C4774,
        0x4C071EFF5E32A759,
        0x3138670C095C39B5,
    ],
    [
        0x28706BD045300258,
        0x2DAB85F05B9201D0,
        0x8DFDEE2D9D84CA88,
        0xB371FAE63A4EB07E,
    ],
];

// Table 2 of document 000, M = 511: the 128 digits of each printed number, the zero bit in front included, 16 to a word.
const GENERATOR511: [[[u64; 8]; 2]; 14] = [
    [
        [
            0x55BF56CC55283DFE,
            0xEFEA8C8CFF04E1EB,
            0xD9067710988E2504,
            0x8D67525426939E20,
            0x68D2DC6FCD2F822B,
            0xEB6BD96C8A76F493,
            0x2AAE9BC53AD20A2A,
            0x9C86BB461E43759C,
        ],
        [
            0x6855AE08698A50AA,
            0x3051768793DC2385,
            0x44AF3FE987391021,
            0xAAF6383A6503409C,
            0x3CE971A80B3ECE12,
            0x363EE809A01D9120,
            0x4F1811123EAB867D,
            0x3E40E8C652585D28,
        ],
    ],
    [
        [
            0x62B21CF0AEE0649F,
            0xA67B7D0EA6551C1C,
            0xD194CA77501E0FCF,
            0x8C85867B9CF679C1,
            0x8BCF7939E10F8550,
            0x661848A4E0A9E9ED,
            0xB7DAB9EDABA18C16,
            0x8C8E28AACDDEAB1E,
        ],
        [
            0x64B71F486AD57125,
            0x660C4512247B229F,
            0x0017BA649C6C1114,
            0x8FB00B70808286F1,
            0xA9790748D296A593,
            0xFA4FD2C6D7AAF775,
            0x0F0C71B31AEE5B40,
            0x0C7F5D73AAF00710,
        ],
    ],
    [
        [
            0x681A8E51420BD829,
            0x4ECE13E491D61808,
            0x3FFBBA830DB5FAF3,
            0x30209877D801F92B,
            0x5E07117C57E75F6F,
            0x0D873B3E520F21EA,
            0xFD78C1612C622811,
            0x1A369D5790F5929A,
        ],
        [
            0x04DF1DD77F1C20C1,
            0xFB570D7DD7A1219E,
            0xAECEA4B287728265,
            0x1B0FFE713DF338A6,
            0x3263BC0E324A87E2,
            0xDC1AD64C9F10AAA5,
            0x85ED6905946EE167,
            0xA73CF04AD2AF9218,
        ],
    ],
    [
        [
            0x35951FEE6F20C902,
            0x296C9488003345E6,
            0xC5526C5519230454,
            0xC556B8A04FC0DC64,
            0x2D682D94B4594B51,
            0x97037DF15B5817B2,
            0x6F16D0A3302C0938,
            0x3412822F6D2B234E,
        ],
        [
            0x7681CF7F278380E2,
            0x8F1262B22F40BF34,
            0x05BFB92311A8A34D,
            0x084C086464777431,
            0xDBFDDD2E82A2E674,
            0x2BAD6533B51B2BDE,
            0xE0377E9F6E63DCA0,
            0xB0F1DF97E73D5CD8,
        ],
    ],
    [
        [
            0x188157AE41830744,
            0xBAE0ADA6295E08B7,
            0x9A44081E111F69BB,
            0xE7831D07BEEBF762,
            0x32E065F752D4F218,
            0xD39B6C5BF20AE5B8,
            0xFF172A7F1F680E6B,
            0xF5AAC3C4343736C2,
        ],
        [
            0x5D80A6007C175B5C,
            0x0DD88A442440E2C2,
            0x9C6A136BBCE0D95A,
            0x58A83B48CA0E7474,
            0xE9476C92E33D164B,
            0xFF943A61CE1031DF,
            0xF441B0B175209B49,
            0x8394F4794644392E,
        ],
    ],
    [
        [
            0x60CD1F1C282A1612,
            0x657E8C7C1420332C,
            0xA245C0756F78744C,
            0x807966C3E1326438,
            0x878BD2CCC8338841,
            0x5A612705AB192B35,
            0x12EEF0D95248F7B7,
            0x3E5B0F412BF76DB4,
        ],
        [
            0x434B697B98C9F3E4,
            0x8502C8DBD891D0A0,
            0x386996146DEBEF11,
            0xD4B833033E05EDC2,
            0x8F808F25E8F31413,
            0x5E6675B7608B66F7,
            0xFF33923082429300,
            0x25DDC4BB65CD7B6E,
        ],
    ],
    [
        [
            0x766855125CFDC804,
            0xDAF8DBE3660E8686,
            0x420230ED4E049DF1,
            0x1D82E357C54FE256,
            0xEA01F5681D95544C,
            0x7A1E32B7C30A8E6C,
            0xF5D0869E754FFDE6,
            0xAEFA6D7BE8F1B148,
        ],
        [
            0x222975D325A487FE,
            0x560A6D146311578D,
            0x9C5501D28BC0A1FB,
            0x48C9BDA173E86913,
            0x3A3AA9506C42AE9F,
            0x466E85611FC5F8F7,
            0x4E439638D66D2F00,
            0xC682987A96D8887C,
        ],
    ],
    [
        [
            0x14B5F98E8D55FC8E,
            0x9B4EE453C6963E05,
            0x2147A857AC1E0867,
            0x5D99A308E7269FAC,
            0x5600D7B155DE8CB1,
            0xBAC786F45B46B523,
            0x073692DE745FDF10,
            0x724DDA38FD093B1C,
        ],
        [
            0x1B71AFFB8117BCF8,
            0xB5D002A99FEEA495,
            0x03C0359B056963FE,
            0x5271140E626F6F8F,
            0xCE9F29B37047F9CA,
            0x89EBCE760405C627,
            0x7F329065DF21AB3B,
            0x779AB3E8C8955400,
        ],
    ],
    [
        [
            0x0008B4E899E5F7E6,
            0x92BDCE69CE3FAD99,
            0x7183CFAEB2785D0C,
            0x3D9CAE510316D4BD,
            0x65A2A06CBA7F4E4C,
            0x4A80839ACA810123,
            0x43648EEA8DBBA246,
            0x4A68E115AB3F4034,
        ],
        [
            0x5B7FE6808A10EA42,
            0xFEF0ED9B41920F82,
            0x023085C106FBBC1F,
            0x56B567A14257021B,
            0xC5FDA60CBA05B08F,
            0xAD6DC3B041029588,
            0x4C7CCDE0E56347D6,
            0x49DE6DDCEEB0C95E,
        ],
    ],
    [
        [
            0x5E9B2B33EF82D0E6,
            0x4AA2226D6A0ADCD1,
            0x79D5932EE1CF401B,
            0x336449D0FF775754,
            0xCA56650716E61A43,
            0xF963D59865C7F017,
            0xF538305143066498,
            0x22CAA72C152F6EB2,
        ],
        [
            0x2CD8140C8A37DE0D,
            0x0261259F63AA2A42,
            0x0A8F81FECB661DBA,
            0x5C62DF6C817B4A61,
            0xD2BC1F068A50DFD0,
            0xEA8FE1BD38760106,
            0x2E2276A4987A19A7,
            0x0B460C54F215E184,
        ],
    ],
    [
        [
            0x06F1FF249192F2EA,
            0xF063488E267EEE99,
            0x4E7760995C4FA6FF,
            0xA0E4241825A7F5B6,
            0x5C74FB16AC4C891B,
            0xC008D33AD4FF9752,
            0x3EE5BD14126916E0,
            0x502FF2F8E4A07FC2,
        ],
        [
            0x65287840D0024327,
            0x8F41CE1156D1868F,
            0x24E02F91D3A1886A,
            0xCE906CE741662B40,
            0xB4EFDFB90F76C1AD,
            0xD884D920AFA8B342,
            0x7EEB84A759FA02E0,
            0x0635743F50B942F0,
        ],
    ],
    [
        [
            0x4109DA2A24E41B1F,
            0x375645229981D4B7,
            0xE88C36A12DAB64E9,
            0x1C764CC43CCEC188,
            0xEC8C5855C8FF488B,
            0xB91003602BEF43DB,
            0xEC4A621048906A2C,
            0xDC5DBD4103431DB8,
        ],
        [
            0x2185E3BC7076BA51,
            0xAAD6B199C8C60BCD,
            0x70E8245B87492713,
            0x6E6D8DD527DF0693,
            0xDC10A1C8E51B5BE9,
            0x3FF7538FA138B335,
            0x738F4315361ABF8C,
            0x73BF40593AE22BE4,
        ],
    ],
    [
        [
            0x228845775A262505,
            0xB47288E065B23B4A,
            0x6D78AFBDDB2356B3,
            0x92C692EF56A35AB4,
            0xAA27767DE72F058C,
            0x6484457C95A8CCDD,
            0x0EF225ABA56B7657,
            0xB7F0E947DC17F972,
        ],
        [
            0x2630C6F79878E50C,
            0xF5ABD353A6ED80BE,
            0xACC7169179EA5743,
            0x5E44411BC7D56613,
            0x6DFA983019F3443D,
            0xE8E4C60940BC4E31,
            0xDCEAD514D755AF95,
            0xA622585D69572692,
        ],
    ],
    [
        [
            0x7273E8342918E097,
            0xB1C1F5FEF32A150A,
            0xEF5E11184782B5BD,
            0x5A1D8071E94578B0,
            0xAC722D7BF49E8C78,
            0xD391294371FFBA7B,
            0x88FABF8CC03A62B9,
            0x40CE60D669DFB7B6,
        ],
        [
            0x087EA12042793307,
            0x045B283D7305E93D,
            0x8F74725034E77D25,
            0xD3FF043ADC5F8B5B,
            0x186DB70A968A8168,
            0x35EFB575952EAE7E,
            0xA4E76DF0D5F09759,
            0x0E1A2A978025573E,
        ],
    ],
];

// A function for each table, since the clause of each names its own.
pub fn rows16() -> [[u64; 4]; 4]
    ensures { result ≡ generator16 }
{
    GENERATOR16
}

pub fn rows32() -> [[u64; 4]; 4]
    ensures { result ≡ generator32 }
{
    GENERATOR32
}

pub fn rows64() -> [[u64; 4]; 4]
    ensures { result ≡ generator64 }
{
    GENERATOR64
}

// Each number by its eight words.
pub fn rows511() -> [[[u64; 8]; 2]; 14]
    ensures { result ≡ table_words 8 generator511 }
{
    GENERATOR511
}
